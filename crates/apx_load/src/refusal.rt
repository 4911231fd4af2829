//! What is refused of the words and files of a run.
use apx_json::Name;

/// Why a line of an input is refused.
#[derive(Clone, Copy, Debug, PartialEq, Eq)]
pub enum LineCause {
    /// It would begin window 20,001.
    TooMany,
    /// It has more than 1,024 bytes.
    TooLong,
    /// It is no key, tab and value.
    BadPair,
}

/// The first thing that is refused, in this order: the words, the application's file, its text and its
/// graph, then for each input its file and its lines, then the script's file and its lines, then the journal's
/// file and its lines.
#[derive(Debug, Drop)]
pub enum Refusal {
    /// The words are no command.
    NotACommand,
    /// There is no such file.
    NoFile {
        name: Name,
    },
    /// The file passes its limit: 1 MiB for an application or a script, 16 MiB for an input, 64 MiB for a journal.
    FileTooLong {
        name: Name,
    },
    /// The application is no JSON text.
    NoJson,
    /// The first member, by its path, that is missing or of another shape.
    WrongShape {
        place: Name,
    },
    /// The first rule that the graph breaks, from 1 to 16, and the operator or stream that breaks it.
    BrokenRule {
        code: u8,
        place: Name,
    },
    /// The first line of an input's file that is refused, counted from 1.
    RefusedLine {
        file: Name,
        line: u64,
        cause: LineCause,
    },
    /// The first line of the script that is refused, counted from 1, and why: 1 to 10.
    RefusedCommand {
        line: u64,
        why: u8,
    },
    /// The first line of the journal that is refused, counted from 1, and why: 1 for its form, 2 for its entry.
    RefusedEntry {
        line: u64,
        why: u8,
    },
    /// It is accepted, and asks for what the program doesn't do yet.
    NotBuilt,
}
