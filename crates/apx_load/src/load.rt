//! Reading the files of a run.
ghost use Rattle.std.specs.Prelude.{◌≡◌, ◌≤◌, length, is_some, IfOk, Ok, Some, MatchResult};
ghost use Rattle.apx_cause.specs.Cause.{Rose};
ghost use Rattle.apx_dag.specs.Valid.{IsRole};
ghost use Rattle.apx_input.specs.Refusals.{Reports};
ghost use Rattle.apx_pass.specs.Graph.{Input, is_input};
ghost use Rattle.apx_pass.specs.Groups as groups;
ghost use Rattle.apx_pass.specs.Groups.{first_refused};
ghost use Rattle.apx_pass.specs.Pass.{inputs_before};
ghost use Rattle.apx_load.specs.Refusals.{by_answers, IsFileRefusal, IsAppText, IsTextRefusal, IsApplication, IsApplicationRefusal, IsInputOf, IsLineRefusal, IsInputRefusal, AreInputs, IsInputsRefusal, IsAcceptedRun, IsRunRefusal};
ghost use Rattle.apx_load.specs.Stops.{IsCaused, no_causes, reading_causes, IsUnread};
ghost use Rattle.apx_load.specs.Hearing.{HasHeard};

use crate::refusal::{LineCause, Refusal};
use crate::stop::Stop;
use apx_dag::{Dag, Node, Role};
use apx_device::{Folder, ReadRefusal};
use apx_input::{LineRefusal, Windows};
use apx_json::{Name, read_app};
use apx_tuple::InputKind;
use std::alloc::Global;

/// The most bytes of an application's file: 1 MiB.
const MAX_APPLICATION_LEN: usize = 1_048_576;

/// The most bytes of an input's file: 16 MiB.
const MAX_INPUT_LEN: usize = 16_777_216;

/// The graph of the application in a file.
///
/// It stops at the first thing that is refused of the file, where the folder fails, and for want of
/// memory. The folder's files stay as they are.
pub fn application<F: Folder>(alloc: Global, files: &mut F, name: &str) -> Result<Dag, Stop>
    ensures told { F.told files.new ≡ F.told files.old }
    ensures later { F.faults files.old ≤ F.faults files.new }
    ensures heard { HasHeard F.tells (F.told files.old) (F.heard files.old) (F.heard files.new) (λ answers.
        (length answers ≡ 1) × MatchResult result
        (λ dag. IsApplication (by_answers answers) name.now dag)
        (IsCaused (reading_causes (IsApplicationRefusal (by_answers answers) name.now) answers
        (Rose (F.faults files.old) (F.faults files.new))))) }
{
    let text = read_file(alloc, files, name, MAX_APPLICATION_LEN)?;
    parse(alloc, &text)
}

/// The bytes of a file of at most `limit` bytes.
pub(crate) fn read_file<F: Folder>(
    alloc: Global,
    files: &mut F,
    name: &str,
    limit: usize,
) -> Result<Vec<u8>, Stop>
    ensures told { F.told files.new ≡ F.told files.old }
    ensures later { F.faults files.old ≤ F.faults files.new }
    ensures heard { HasHeard F.tells (F.told files.old) (F.heard files.old) (F.heard files.new) (λ answers.
        (length answers ≡ 1) × MatchResult result
        (λ bytes. by_answers answers name.now limit (Ok bytes.items))
        (IsCaused (reading_causes (IsFileRefusal (by_answers answers) name.now limit) answers
        (Rose (F.faults files.old) (F.faults files.new))))) }
{
    match files.read(alloc, name, limit) {
        Ok(bytes) => Ok(bytes),
        Err(refusal) => Err(unread(alloc, name, refusal)),
    }
}

/// Why a run stops at a file that wasn't read.
fn unread(alloc: Global, name: &str, refusal: ReadRefusal) -> Stop
    ensures { IsUnread name.now refusal result }
{
    let Ok(name) = Name::of(alloc, name) else {
        return Stop::Memory;
    };
    match refusal {
        ReadRefusal::Absent => Stop::Refused(Refusal::NoFile { name }),
        ReadRefusal::TooLong => Stop::Refused(Refusal::FileTooLong { name }),
        ReadRefusal::Failed => Stop::CannotRead { name },
        ReadRefusal::Memory => Stop::Memory,
    }
}

/// The graph of the application in a text.
fn parse(alloc: Global, text: &[u8]) -> Result<Dag, Stop>
    ensures { MatchResult result
        (λ dag. IsAppText text.now dag)
        (IsCaused (record no_causes { refuses = IsTextRefusal text.now })) }
{
    let app = read_app(alloc, text)?;
    Ok(Dag::of(alloc, app)?)
}

/// What the inputs of a graph read, in the order of the application's file.
///
/// It stops at the first input, in the order of the application's file, of which a file or a line is
/// refused, where the folder fails, and for want of memory. The folder's files stay as they are.
pub fn inputs<F: Folder>(alloc: Global, files: &mut F, dag: &Dag) -> Result<Vec<Windows>, Stop>
    ensures told { F.told files.new ≡ F.told files.old }
    ensures later { F.faults files.old ≤ F.faults files.new }
    ensures count { IfOk result (λ inputs. length inputs.items ≡ inputs_before dag.now (length dag.now)) }
    ensures heard { HasHeard F.tells (F.told files.old) (F.heard files.old) (F.heard files.new) (λ answers.
        MatchResult result
        (λ inputs. AreInputs (by_answers answers) dag.now inputs.items)
        (IsCaused (reading_causes (IsInputsRefusal (by_answers answers) dag.now) answers
        (Rose (F.faults files.old) (F.faults files.new))))) }
{
    let mut inputs = Vec::new(alloc);
    for operator in 0..dag.len() {
        if let Some(windows) = input(alloc, files, dag.node(operator))? {
            inputs.push(windows)?;
        }
    }
    Ok(inputs)
}

/// What an operator reads: nothing where it is no input.
fn input<F: Folder>(alloc: Global, files: &mut F, node: &Node) -> Result<Option<Windows>, Stop>
    requires { IsRole node.now.role }
    ensures told { F.told files.new ≡ F.told files.old }
    ensures later { F.faults files.old ≤ F.faults files.new }
    ensures there { IfOk result (λ input. is_some input ≡ is_input node.now.role) }
    ensures heard { HasHeard F.tells (F.told files.old) (F.heard files.old) (F.heard files.new) (λ answers.
        MatchResult result
        (λ input. IsInputOf (by_answers answers) node.now.role input)
        (IsCaused (reading_causes (IsInputRefusal (by_answers answers) node.now.role) answers
        (Rose (F.faults files.old) (F.faults files.new))))) }
{
    match &node.role {
        Role::Input {
            kind,
            file,
            per_window,
        } => Ok(Some(lines(alloc, files, *kind, file, *per_window)?)),
        Role::Inner(_) => Ok(None),
        Role::Sink => Ok(None),
    }
}

/// The windows of an input's file.
fn lines<F: Folder>(
    alloc: Global,
    files: &mut F,
    kind: InputKind,
    file: &Name,
    per_window: u32,
) -> Result<Windows, Stop>
    requires { (1 ≤ per_window) × (per_window ≤ 1000000) }
    ensures told { F.told files.new ≡ F.told files.old }
    ensures later { F.faults files.old ≤ F.faults files.new }
    ensures heard { HasHeard F.tells (F.told files.old) (F.heard files.old) (F.heard files.new) (λ answers.
        MatchResult result
        (λ input. IsInputOf (by_answers answers) (Input kind file.now per_window) (Some input))
        (IsCaused (reading_causes (IsInputRefusal (by_answers answers) (Input kind file.now per_window)) answers
        (Rose (F.faults files.old) (F.faults files.new))))) }
{
    let text = read_file(alloc, files, file.text(), MAX_INPUT_LEN)?;
    match Windows::of(kind, per_window, text) {
        Ok(windows) => Ok(windows),
        Err(refusal) => Err(refused_line(file, refusal)),
    }
}

/// Why a run stops at a refused line of a file.
fn refused_line(file: &Name, refusal: LineRefusal) -> Stop
    ensures { (input : groups.Input) → Reports refusal (first_refused input) →
        IsCaused (record no_causes { refuses = IsLineRefusal input file.now }) result }
{
    let (line, cause) = match refusal {
        LineRefusal::TooMany { line } => (line, LineCause::TooMany),
        LineRefusal::TooLong { line } => (line, LineCause::TooLong),
        LineRefusal::BadPair { line } => (line, LineCause::BadPair),
        LineRefusal::Memory => return Stop::Memory,
    };
    match file.copy() {
        Ok(file) => Stop::Refused(Refusal::RefusedLine { file, line, cause }),
        Err(_) => Stop::Memory,
    }
}

/// The graph of the application in a file, with what its inputs read.
///
/// It stops at the first thing that is refused of the application's file, or else of an input's, where the
/// folder fails, and for want of memory. The folder's files stay as they are.
pub fn run<F: Folder>(alloc: Global, files: &mut F, name: &str) -> Result<(Dag, Vec<Windows>), Stop>
    ensures told { F.told files.new ≡ F.told files.old }
    ensures later { F.faults files.old ≤ F.faults files.new }
    ensures count { IfOk result (λ run. length run.1.items ≡ inputs_before run.0 (length run.0)) }
    ensures heard { HasHeard F.tells (F.told files.old) (F.heard files.old) (F.heard files.new) (λ answers.
        MatchResult result
        (λ run. IsAcceptedRun (by_answers answers) name.now (record { nodes = run.0; inputs = run.1.items }))
        (IsCaused (reading_causes (IsRunRefusal (by_answers answers) name.now) answers
        (Rose (F.faults files.old) (F.faults files.new))))) }
{
    let dag = application(alloc, files, name)?;
    let inputs = inputs(alloc, files, &dag)?;
    Ok((dag, inputs))
}
