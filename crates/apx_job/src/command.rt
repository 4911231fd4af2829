//! The commands of a script with the numbers of their operators, and the epochs that they make.

ghost use Rattle.std.specs.Prelude.{◌≡◌, ◌<◌, ◌≤◌, length, map, IfOk};
ghost use Rattle.apx_history.specs.Plan.{boundary_in, number_in, splits_op, count_or};
ghost use Rattle.apx_job.specs.Job.{operator_of, window_of, number_of, command_in, point_in, act_in};
ghost use Rattle.apx_script.specs.Views.{point_view, act_view};

use apx_dag::Dag;
use apx_history as history;
use apx_script::{Act, Line, Point};
use std::alloc::{AllocError, Global};

/// The operator that a command names.
pub(crate) fn operator_of(act: &Act) -> &[u8]
    ensures { result.now ≡ operator_of (act_view act.now) }
{
    match act {
        Act::Kill { name, .. } | Act::Repartition { name, .. } => name.text().as_bytes(),
    }
}

/// The window that it names.
pub(crate) fn window_of(act: &Act) -> u32
    ensures { result ≡ window_of (act_view act.now) }
{
    match act {
        Act::Kill { window, .. } | Act::Repartition { window, .. } => *window,
    }
}

fn point_in(point: Point) -> history::Point
    ensures { result ≡ point_in (point_view point) }
{
    match point {
        Point::Before => history::Point::Before,
        Point::Staged => history::Point::Staged,
        Point::Written => history::Point::Written,
        Point::Done => history::Point::Done,
    }
}

fn act_in(act: &Act) -> history::Act
    ensures { result ≡ act_in (act_view act.now) }
{
    match act {
        Act::Kill { point, part, .. } => history::Act::Fails {
            point: point_in(*point),
            part: *part,
        },
        Act::Repartition { count, .. } => history::Act::Splits { count: *count },
    }
}

/// A command with its operator's number, or the number past the last where no operator has its name.
fn command_in(dag: &Dag, line: &Line) -> history::Line
    ensures { result ≡ command_in dag.now line.now }
{
    history::Line {
        op: dag.find(operator_of(&line.act)).unwrap_or(dag.len()),
        window: window_of(&line.act),
        act: act_in(&line.act),
    }
}

/// The commands of a script with the numbers of their operators.
pub(crate) fn commands_in(
    alloc: Global,
    dag: &Dag,
    lines: &[Line],
) -> Result<Vec<history::Line>, AllocError>
    ensures { IfOk result (λ commands. commands.items ≡ map (command_in dag.now) lines.now) }
{
    let mut commands = Vec::new(alloc);
    for line in lines {
        commands.push(command_in(dag, line))?;
    }
    Ok(commands)
}

/// Whether a command repartitions the operator.
fn splits(command: &history::Line, op: u16) -> bool
    ensures { result ≡ splits_op op command.now }
{
    matches!(command.act, history::Act::Splits { .. }) && command.op == op
}

/// The boundary of the operator's epoch that holds a window.
pub(crate) fn boundary_in(commands: &[history::Line], op: u16, window: u32) -> u32
    ensures { result ≡ boundary_in commands.now op window }
{
    let mut boundary = 0;
    for command in commands {
        if splits(command, op) && command.window < window {
            boundary = boundary.max(command.window);
        }
    }
    boundary
}

/// The number of partitions to which a command repartitions, or the other number.
fn count_or(other: u8, act: history::Act) -> u8
    ensures { result ≡ count_or other act }
{
    match act {
        history::Act::Splits { count } => count,
        history::Act::Fails { .. } => other,
    }
}

/// How many partitions the operator has in the epoch with a boundary, where it has `first` at the start.
pub(crate) fn number_in(commands: &[history::Line], op: u16, boundary: u32, first: u8) -> u8
    ensures { result ≡ number_in commands.now op boundary first }
{
    for command in commands {
        if splits(command, op) && command.window == boundary {
            return count_or(first, command.act);
        }
    }
    first
}
