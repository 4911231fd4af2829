//! The laws of reports. The function does nothing: it states laws in its contract.

ghost use Rattle.apx_tally.specs.Laws.{ReportsAreTrue, EndedReportsAreWhole};

/// A report of a history tells how many windows the run has stored, and what is committed. That of a run that has ended tells
/// as many Kills and Repartitions as the script has lines of them.
pub fn reports_are_true()
    ensures told { ReportsAreTrue }
    ensures whole { EndedReportsAreWhole }
{}
