//! Reading a progress.
ghost use Rattle.std.specs.Prelude.{◌≡◌, map, Ok, IfOk};
ghost use Rattle.apx_tuple.specs.declared.progress.Progress.{Progress};
ghost use Rattle.apx_tuple.specs.State.{IsState};
ghost use Rattle.apx_tuple.specs.Tuple.{IsBag};
ghost use Rattle.apx_statebytes.specs.Reading.{Gives, first_form, second_form, marked_form, progress_in};
ghost use Rattle.apx_statebytes.specs.Rows.{tuple_of};
ghost use Rattle.apx_statebytes.specs.Spelling.{Spells, IsProgress};

use crate::fault::StateFault;
use crate::rows::{Row, rows_of};
use apx_tuple::{Bag, Progress, Short, State, Tuple};
use std::alloc::{AllocError, Global};

/// The size that no progress reaches.
const LARGE: u64 = 4294967232;

/// The progress that the bytes spell, in spelling 2 or, for a state alone, in spelling 1.
///
/// `Bad` tells the first place that shows that they spell none: where a field isn't whole, their end; else the first byte of the
/// length, the row or the number that is wrong, or of what is left over.
pub fn decode(alloc: Global, bytes: &[u8]) -> Result<Progress, StateFault>
    ensures exact { Gives (λ g. g) result (progress_in bytes.now) }

    // What is read is spelled so, and what is spelled so is read.
    ensures found { IfOk result (λ g. Spells bytes.now g × IsProgress g) }
    ensures only { (g : Progress) → IsProgress g → Spells bytes.now g → Gives (λ x. x) result (Ok g) }
{
    read(alloc, bytes)
}

fn read(alloc: Global, bytes: &[u8]) -> Result<Progress, StateFault>
    ensures { Gives (λ g. g) result (progress_in bytes.now) }
{
    match bytes {
        [255, rest @ ..] => marked_form(alloc, bytes.len(), rest),
        _ => first_form(alloc, bytes.len(), bytes),
    }
}

fn marked_form(alloc: Global, total: usize, bytes: &[u8]) -> Result<Progress, StateFault>
    ensures { Gives (λ g. g) result (marked_form total bytes.now) }
{
    match bytes {
        [2, rest @ ..] => second_form(alloc, total, rest),
        _ => Err(StateFault::Bad { at: 1 }),
    }
}

#[tactic(auto, unfolding(crate::specs::Reading::first_form))]
fn first_form(alloc: Global, total: usize, bytes: &[u8]) -> Result<Progress, StateFault>
    ensures { Gives (λ g. g) result (first_form total bytes.now) }
{
    let (rows, _room, rest) = rows_of(alloc, total, LARGE, true, bytes)?;
    if !rest.is_empty() {
        let at = total.saturating_sub(rest.len());
        return Err(StateFault::Bad { at });
    }
    Ok(Progress {
        state: state_of(alloc, rows)?,
        left: Bag::new(alloc),
        right: Bag::new(alloc),
    })
}

#[tactic(auto, unfolding(crate::specs::Reading::second_form))]
fn second_form(alloc: Global, total: usize, bytes: &[u8]) -> Result<Progress, StateFault>
    ensures { Gives (λ g. g) result (second_form total bytes.now) }
{
    let (state, room, rest) = rows_of(alloc, total, LARGE, true, bytes)?;
    let (left, room, rest) = rows_of(alloc, total, room, false, rest)?;
    let (right, _room, rest) = rows_of(alloc, total, room, false, rest)?;
    if !rest.is_empty() {
        let at = total.saturating_sub(rest.len());
        return Err(StateFault::Bad { at });
    }
    Ok(Progress {
        state: state_of(alloc, state)?,
        left: bag_of(alloc, left)?,
        right: bag_of(alloc, right)?,
    })
}

// The state of these pairs.
fn state_of(alloc: Global, rows: Vec<Row>) -> Result<State, AllocError>
    requires { IsState rows.items }
    ensures { IfOk result (λ state. state ≡ rows.items) }
{
    match State::from_ascending(alloc, rows) {
        Ok(state) => Ok(state),
        Err(Short::Memory) => Err(AllocError),
        Err(Short::Large) => unreachable!(),
    }
}

// The bag of these rows.
fn bag_of(alloc: Global, rows: Vec<Row>) -> Result<Bag, AllocError>
    requires { IsBag (map tuple_of rows.items) }
    ensures { IfOk result (λ bag. bag ≡ map tuple_of rows.items) }
{
    match Bag::from_ascending(tuples_of(alloc, rows)?) {
        Ok(bag) => Ok(bag),
        Err(Short::Memory) => Err(AllocError),
        Err(Short::Large) => unreachable!(),
    }
}

fn tuples_of(alloc: Global, rows: Vec<Row>) -> Result<Vec<Tuple>, AllocError>
    ensures { IfOk result (λ tuples. tuples.items ≡ map tuple_of rows.items) }
{
    let mut tuples = Vec::with_capacity(alloc, rows.len())?;
    for (key, value) in rows {
        tuples.push(Tuple { key, value })?;
    }
    Ok(tuples)
}
