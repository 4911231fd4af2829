//! The rules of applications, in the order in which they are tried.

ghost use Rattle.std.specs.Prelude.{◌≡◌, ◌&&◌, ◌||◌, ◌==◌, [], find, filter, slice_get, is_none, not, nat_lt, length, option_map, IfOk};
ghost use Rattle.std.specs.List.{list_any};
ghost use Rattle.apx_dag.specs.Checks.{Gives, unless};
ghost use Rattle.apx_dag.specs.Class as classes;
ghost use Rattle.apx_dag.specs.Class.{class_of};
ghost use Rattle.apx_dag.specs.Role.{role_in};
ghost use Rattle.apx_dag.specs.Rules.{whole, operator_name, stream_name, name_again, no_port, port_again, unused_port, before_cycles, is_class, is_store, is_one, outside, has_bad_name, after_cycles};

use crate::class::Class;
use crate::known::{KnownApp, KnownOperator};
use crate::names::{any_bad, first_repeated};
use crate::port::{no_port, port_again, unused_port};
use crate::refusal::{AppRefusal, refuse};
use crate::role::whole;
use apx_json::{Name, StreamText};
use std::alloc::{AllocError, Global};

/// The most operators of an application.
const MOST_OPERATORS: usize = 16;

/// The first operator with an unknown class.
fn unknown_class(operators: &[KnownOperator]) -> Option<&KnownOperator>
    ensures { option_map (λ o. o.now) result ≡ find (λ o. is_none (class_of o.class)) operators.now }
{
    operators.iter().find(|operator| operator.class().is_none())
}

/// The first operator whose properties aren't those of its class.
fn wrong_properties(operators: &[KnownOperator]) -> Option<&KnownOperator>
    ensures { option_map (λ o. o.now) result ≡ find (λ o. is_none (role_in o)) operators.now }
{
    operators.iter().find(|operator| operator.has_no_role())
}

/// The first operator, and else the first stream, with the name of an earlier one.
fn name_again<'a>(alloc: Global, app: &'a KnownApp) -> Result<Option<&'a Name>, AllocError>
    ensures { IfOk result (λ found. option_map (λ n. n.now) found ≡ name_again app.now) }
{
    match first_repeated(alloc, &app.operators)? {
        Some(name) => Ok(Some(name)),
        None => first_repeated(alloc, &app.streams),
    }
}

/// Whether the class of an operator passes a test.
fn is_store(operator: &KnownOperator) -> bool
    ensures { result ≡ is_class is_store operator.now }
{
    match operator.class() {
        Some(class) => matches!(class, Class::Store),
        None => false,
    }
}

fn is_end(operator: &KnownOperator) -> bool
    ensures { result ≡ is_class classes.is_end operator.now }
{
    match operator.class() {
        Some(class) => class.is_end(),
        None => false,
    }
}

fn has_store(operators: &[KnownOperator]) -> bool
    ensures { result ≡ list_any (is_class is_store) operators.now }
{
    operators.iter().any(is_store)
}

fn second_store(operators: &[KnownOperator]) -> Option<&KnownOperator>
    ensures { option_map (λ o. o.now) result
        ≡ slice_get (filter (is_class is_store) operators.now) 1 }
{
    operators
        .iter()
        .filter(|operator| is_store(operator))
        .nth(1)
}

fn is_one(n: i64) -> bool
    ensures { result ≡ is_one n }
{
    n == 1
}

fn outside(low: u32, high: u32, n: i64) -> bool
    ensures { result ≡ outside low high n }
{
    whole(n, low, high).is_none()
}

fn wrong_partitions(operators: &[KnownOperator]) -> Option<&KnownOperator>
    ensures { option_map (λ o. o.now) result ≡ find (λ o. outside 1 8 o.partitions) operators.now }
{
    operators
        .iter()
        .find(|operator| outside(1, 8, operator.written().partitions))
}

/// The first input or sink that has several partitions.
fn partitioned_end(operators: &[KnownOperator]) -> Option<&KnownOperator>
    ensures { option_map (λ o. o.now) result
        ≡ find (λ o. is_class classes.is_end o && not (is_one o.partitions)) operators.now }
{
    operators.iter().find(|operator| is_end(operator) && !is_one(operator.written().partitions))
}

/// The first stream with no sinks, or more than 8.
fn wrong_sinks(streams: &[StreamText]) -> Option<&StreamText>
    ensures { option_map (λ s. s.now) result
        ≡ find (λ s. length s.sinks == 0 || nat_lt 8 (length s.sinks)) streams.now }
{
    streams
        .iter()
        .find(|stream| stream.sinks.is_empty() || 8 < stream.sinks.len())
}

fn wrong_windows(operators: &[KnownOperator]) -> Option<&KnownOperator>
    ensures { option_map (λ o. o.now) result ≡ find (λ o. outside 1 20000 o.app_windows) operators.now }
{
    operators.iter().find(|operator| outside(1, 20_000, operator.written().app_windows))
}

/// The first input or sink that gathers windows.
fn gathering_end(operators: &[KnownOperator]) -> Option<&KnownOperator>
    ensures { option_map (λ o. o.now) result
        ≡ find (λ o. is_class classes.is_end o && not (is_one o.app_windows)) operators.now }
{
    operators.iter().find(|operator| is_end(operator) && !is_one(operator.written().app_windows))
}

fn has_bad_name(app: &KnownApp) -> bool
    ensures { result ≡ has_bad_name app.now }
{
    any_bad(&app.operators) || any_bad(&app.streams)
}

/// Refuses the whole application by a rule that it breaks.
#[tactic(auto, unfolding(crate::specs::Checks::unless))]
fn refuse_whole(alloc: Global, code: u8, broken: bool) -> Result<(), AppRefusal>
    ensures { Gives result (unless code (whole broken)) }
{
    if broken {
        return Err(AppRefusal::Refused {
            code,
            place: Name::of(alloc, "")?,
        });
    }
    Ok(())
}

/// Refuses by a rule that an operator breaks.
fn refuse_operator(code: u8, operator: Option<&KnownOperator>) -> Result<(), AppRefusal>
    ensures { Gives result
        (unless code (option_map operator_name (option_map (λ o. o.now) operator.entry))) }
{
    match operator {
        Some(operator) => refuse(code, Some(&operator.written().name)),
        None => refuse(code, None),
    }
}

/// Refuses by a rule that a stream breaks.
fn refuse_stream(code: u8, stream: Option<&StreamText>) -> Result<(), AppRefusal>
    ensures { Gives result
        (unless code (option_map stream_name (option_map (λ s. s.now) stream.entry))) }
{
    match stream {
        Some(stream) => refuse(code, Some(&stream.name)),
        None => refuse(code, None),
    }
}

/// The rules before the one on cycles.
#[tactic(auto, unfolding(crate::specs::Rules::before_cycles))]
pub(crate) fn before_cycles(alloc: Global, app: &KnownApp) -> Result<(), AppRefusal>
    ensures { Gives result (before_cycles app.now) }
{
    refuse_whole(alloc, 1, MOST_OPERATORS < app.operators.len())?;
    refuse(2, name_again(alloc, app)?)?;
    refuse_operator(3, unknown_class(&app.operators))?;
    refuse_operator(4, wrong_properties(&app.operators))?;
    refuse_stream(5, no_port(app))?;
    refuse(6, port_again(&app.streams))?;
    refuse_operator(7, unused_port(app))
}

/// The rules after the one on cycles.
#[tactic(auto, unfolding(crate::specs::Rules::after_cycles))]
pub(crate) fn after_cycles(alloc: Global, app: &KnownApp) -> Result<(), AppRefusal>
    ensures { Gives result (after_cycles app.now) }
{
    refuse_whole(alloc, 9, !has_store(&app.operators))?;
    refuse_operator(10, second_store(&app.operators))?;
    refuse_operator(11, wrong_partitions(&app.operators))?;
    refuse_operator(12, partitioned_end(&app.operators))?;
    refuse_stream(13, wrong_sinks(&app.streams))?;
    refuse_whole(alloc, 14, has_bad_name(app))?;
    refuse_operator(15, wrong_windows(&app.operators))?;
    refuse_operator(16, gathering_end(&app.operators))
}
