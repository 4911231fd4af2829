//! The laws of the first refusal and of journals. The functions do nothing: each states laws in its contract.

ghost use Rattle.apx_load.specs.Laws.{NeverBoth, NeverNeither, OneRefusal, LegalIsAccepted, WrittenIsLegal};

/// Words and files that a folder tells are accepted, or there is exactly one first refusal: never both, never
/// neither, and never another one. Of a journal that means that no line of it is refused, which is so of a legal one.
pub fn words_and_files_are_decided()
    ensures both { NeverBoth }
    ensures neither { NeverNeither }
    ensures one { OneRefusal }
    ensures legal { LegalIsAccepted }
{}

/// The history of a run that began from nothing, written down, is a legal journal of the run's job: each audit of the
/// same files with the same checkpoints finds its entries.
pub fn written_journals_are_legal()
    ensures { WrittenIsLegal }
{}
