//! What is kept at the start of a run that begins from nothing.
ghost use Rattle.std.specs.Prelude.{◌≡◌, [], ◌∷◌, ◌++◌, length, replicate, Err, IfOk, IfErr, OnOk};
ghost use Rattle.apx_cause.specs.Cause.{HasCause};
ghost use Rattle.apx_history.specs.State.{oper};
ghost use Rattle.apx_list.specs.Plan.{IsPlan};
ghost use Rattle.apx_held.specs.Begun.{first_holding, AreFirst};

use crate::contents::Contents;
use crate::group::Group;
use crate::held::Held;
use apx_device::{Spools, SpoolsRefusal};
use apx_list::CutPlan;
use apx_machine::Machine;
use apx_tuple::Progress;
use std::alloc::Global;

/// What is kept for a partition that has nothing behind it.
fn first_held<P: Spools>(
    alloc: Global,
    plan: CutPlan,
    spools: &mut P,
) -> Result<Held<P::S>, SpoolsRefusal>
    requires { IsPlan plan }
    ensures first { IfOk result (λ held. held ≡ first_holding plan) }
    ensures cause { HasCause (P.faults spools.old) (P.faults spools.new) (result ≡ Err SpoolsRefusal.Failed) }
{
    match spools.fresh() {
        Ok(spool) => Ok(Held::new(alloc, plan, 0, Progress::new(alloc), spool)),
        Err(refusal) => Err(refusal),
    }
}

/// One member more.
fn add<T: Drop>(members: &mut Vec<T>, member: T) -> Result<(), SpoolsRefusal>
    ensures items { OnOk result (members.new.items ≡ members.old.items ++ member ∷ []) }
    ensures memory { IfErr result (λ refusal. refusal ≡ SpoolsRefusal.Memory) }
{
    match members.push(member) {
        Ok(()) => Ok(()),
        Err(_) => Err(SpoolsRefusal::Memory),
    }
}

/// What is kept for an operator of so many partitions.
fn first_group<P: Spools>(
    alloc: Global,
    count: usize,
    plan: CutPlan,
    spools: &mut P,
) -> Result<Vec<Held<P::S>>, SpoolsRefusal>
    requires { IsPlan plan }
    ensures first { IfOk result (λ parts. parts.items ≡ replicate count (first_holding plan)) }
    ensures cause { HasCause (P.faults spools.old) (P.faults spools.new) (result ≡ Err SpoolsRefusal.Failed) }
{
    let mut parts = Vec::new(alloc);
    for done in 0..count {
        let held = first_held(alloc, plan, spools)?;
        add(&mut parts, held)?;
    }
    Ok(parts)
}

/// What is kept at the start of a run that begins from nothing: each partition of the machine has nothing behind it.
pub fn begin<P: Spools>(
    alloc: Global,
    machine: &Machine,
    plan: CutPlan,
    spools: &mut P,
) -> Result<Contents<P::S>, SpoolsRefusal>
    requires { IsPlan plan }
    ensures first { IfOk result (λ c. AreFirst plan machine.now.state c) }
    ensures cause { HasCause (P.faults spools.old) (P.faults spools.new) (result ≡ Err SpoolsRefusal.Failed) }
{
    let mut groups = Vec::new(alloc);
    for op in 0..machine.len() {
        let group = first_group(alloc, machine.parts(op), plan, spools)?;
        add(&mut groups, Group::of(group))?;
    }
    Ok(Contents::of(groups))
}
