//! The laws of verdicts. The functions do nothing: each states laws in its contract.

ghost use Rattle.apx_audit.specs.Laws.{SomeVerdict, OneVerdict, EndedIsWhole};

/// Each text has exactly one verdict: it is that of one legal journal, or one line is the first that is refused, for one
/// reason.
pub fn texts_are_decided()
    ensures some { SomeVerdict }
    ensures one { OneVerdict }
{}

/// A legal journal that ends with the end of the run has stored each window, and met each line of the script once.
pub fn ended_journals_are_whole()
    ensures { EndedIsWhole }
{}
