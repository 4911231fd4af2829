//! Commands.

use apx_json::Name;
use apx_script::Settings;

/// What the program is told to do. `app` is the file of an application, and
/// `script` that of a script, where one is given. Each number is within the
/// limits of its option.
#[derive(Debug, Drop)]
pub enum Command {
    /// Judges an application.
    Check {
        app: Name,
    },
    /// Prints an application's operators and their partitions.
    Plan {
        app: Name,
    },
    /// Prints the rows of one pass, with identifiers over the second `base`.
    Mean {
        app: Name,
        base: u32,
    },
    /// Runs on one thread, in the order that a number picks.
    Sim {
        app: Name,
        script: Option<Name>,
        settings: Settings,
        order: u64,
    },
    /// Runs on 1 to 16 threads.
    Run {
        app: Name,
        script: Option<Name>,
        settings: Settings,
        threads: u8,
    },
    /// Makes an example from a number, of 1 to 200,000 lines, and runs it.
    Gen {
        number: u64,
        size: u32,
    },
    /// Runs on one thread, with the operators grouped as a file says.
    Group {
        app: Name,
        groups: Name,
        script: Option<Name>,
        settings: Settings,
    },
    /// Runs as `Sim`, and prints the journal.
    Trace {
        app: Name,
        script: Option<Name>,
        settings: Settings,
        order: u64,
    },
    /// Judges the journal in a file.
    Audit {
        app: Name,
        journal: Name,
        script: Option<Name>,
        settings: Settings,
    },
}

/// What a run that may resume an earlier one is told.
#[derive(Debug, Drop)]
pub struct ResumeWords {
    /// The file of the application.
    pub app: Name,
    /// The settings that its options give.
    pub settings: Settings,
    /// The number that picks the order of the events.
    pub order: u64,
}
