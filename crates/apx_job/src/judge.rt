//! The lines of a script that a job refuses.

ghost use Rattle.std.specs.Prelude.{◌≡◌, ◌<◌, ◌||◌, length, [], Some, None};
ghost use Rattle.std.specs.List.{list_any};
ghost use Rattle.apx_pass.specs.Graph.{node_at, is_input, is_sink};
ghost use Rattle.apx_job.specs.Job.{splits_at, split_reason, act_reason, named_reason, reason, kills_nobody, late_reason, first_refused_behind, refused_line, is_written};
ghost use Rattle.apx_script.specs.Views.{act_view, point_view};
ghost use Rattle.apx_job.specs.Refusal.{Judges};

use crate::command::{operator_of, window_of};
use crate::parts::Parts;
use apx_dag::Dag;
use apx_script::{Act, Line, Point, ScriptRefusal};

/// Whether an act repartitions the operator with this name at this window.
fn splits_at(name: &[u8], at: u32, act: &Act) -> bool
    ensures { result ≡ splits_at name.now at (act_view act.now) }
{
    match act {
        Act::Kill { .. } => false,
        Act::Repartition {
            window,
            name: own,
            ..
        } => own.text().as_bytes() == name && *window == at,
    }
}

/// Whether one of the lines repartitions the operator with this name at this window.
fn any_splits(name: &[u8], window: u32, earlier: &[Line]) -> bool
    ensures { result ≡ list_any (λ line. splits_at name.now window line.act) earlier.now }
{
    earlier
        .iter()
        .any(|line| splits_at(name, window, &line.act))
}

/// Whether the operator is an input or the sink.
fn is_end(dag: &Dag, op: u16) -> bool
    requires { op < length dag.now }
    ensures { result ≡ (is_input (node_at dag.now op).role || is_sink (node_at dag.now op).role) }
{
    dag.node(op).is_input() || dag.node(op).is_sink()
}

fn is_written(point: Point) -> bool
    ensures { result ≡ is_written (point_view point) }
{
    matches!(point, Point::Written)
}

/// Why a repartition of the operator is refused, if it is.
#[tactic(auto, unfolding(crate::specs::Job::split_reason))]
fn split_reason(
    parts: &Parts,
    earlier: &[Line],
    op: u16,
    window: u32,
    count: u8,
    name: &[u8],
) -> Option<u8>
    requires op { op < length parts.now.flow.nodes }
    requires every { 0 < parts.now.settings.every }
    ensures { result ≡ split_reason parts.now earlier.now op window count name.now }
{
    if window % parts.settings.every != 0 {
        Some(5)
    } else if !(1 <= count && count <= 8) {
        Some(6)
    } else if is_end(&parts.dag, op) {
        Some(7)
    } else if any_splits(name, window, earlier) {
        Some(8)
    } else {
        None
    }
}

/// Why what is done to the operator is refused, if it is.
fn act_reason(parts: &Parts, earlier: &[Line], op: u16, act: &Act) -> Option<u8>
    requires op { op < length parts.now.flow.nodes }
    requires every { 0 < parts.now.settings.every }
    ensures { result ≡ act_reason parts.now earlier.now op (act_view act.now) }
{
    match act {
        Act::Kill { point, .. } => {
            if is_written(*point) && !parts.dag.node(op).is_sink() {
                Some(10)
            } else {
                None
            }
        }
        Act::Repartition {
            window,
            count,
            name,
        } => split_reason(parts, earlier, op, *window, *count, name.text().as_bytes()),
    }
}

/// Why a command for the operator is refused, if it is.
#[tactic(auto, unfolding(crate::specs::Job::named_reason))]
fn named_reason(parts: &Parts, earlier: &[Line], act: &Act, op: u16) -> Option<u8>
    requires op { op < length parts.now.flow.nodes }
    requires every { 0 < parts.now.settings.every }
    ensures { result ≡ named_reason parts.now earlier.now (act_view act.now) op }
{
    let window = window_of(act);
    if !(1 <= window && window <= parts.windows) {
        return Some(4);
    }
    act_reason(parts, earlier, op, act)
}

/// Why a line behind others is refused, if it is.
#[tactic(auto, unfolding(crate::specs::Job::reason))]
fn reason(parts: &Parts, earlier: &[Line], line: &Line) -> Option<u8>
    requires { 0 < parts.now.settings.every }
    ensures { result ≡ reason parts.now earlier.now line.now }
{
    match parts.dag.find(operator_of(&line.act)) {
        Some(op) => named_reason(parts, earlier, &line.act, op),
        None => Some(3),
    }
}

/// Whether an act kills a partition that isn't there at its window.
fn kills_nobody(parts: &Parts, op: u16, act: &Act) -> bool
    requires { op < length parts.now.flow.nodes }
    ensures { result ≡ kills_nobody parts.now op (act_view act.now) }
{
    match act {
        Act::Kill { window, part, .. } => !(*part < parts.in_force(op, *window)),
        Act::Repartition { .. } => false,
    }
}

/// Why a line is refused once all have their operators and windows, if it is.
#[tactic(auto, unfolding(crate::specs::Job::late_reason))]
fn late_reason(parts: &Parts, line: &Line) -> Option<u8>
    ensures { result ≡ late_reason parts.now line.now }
{
    let op = parts.dag.find(operator_of(&line.act))?;
    if kills_nobody(parts, op, &line.act) {
        Some(9)
    } else {
        None
    }
}

/// Judges each line for all reasons but the last.
fn judge_first(parts: &Parts) -> Result<(), ScriptRefusal>
    requires { 0 < parts.now.settings.every }
    ensures { Judges result (first_refused_behind (reason parts.now) [] parts.now.script) }
{
    let lines = parts.script.lines();
    for (k, line) in lines.iter().enumerate() {
        if let Some(why) = reason(parts, &lines[..k], line) {
            return Err(ScriptRefusal::Line {
                line: line.number,
                why,
            });
        }
    }
    Ok(())
}

/// Judges each line for the last reason.
fn judge_last(parts: &Parts) -> Result<(), ScriptRefusal>
    ensures { Judges result (first_refused_behind (λ earlier. late_reason parts.now) [] parts.now.script) }
{
    for line in parts.script.lines() {
        if let Some(why) = late_reason(parts, line) {
            return Err(ScriptRefusal::Line {
                line: line.number,
                why,
            });
        }
    }
    Ok(())
}

/// Judges the script.
#[tactic(auto, unfolding(crate::specs::Job::refused_line))]
pub(crate) fn judge(parts: &Parts) -> Result<(), ScriptRefusal>
    requires { 0 < parts.now.settings.every }
    ensures { Judges result (refused_line parts.now) }
{
    judge_first(parts)?;
    judge_last(parts)
}
