//! What is promised of the history of a run: laws that hold for every plan, every start and every history.
//!
//! `apx_history` says what a history is and what every state keeps. Here stands what follows for a whole run: what it has
//! stored, that whatever is read is there, that it goes on until it ends, what it has done by then, which history an order
//! picks, and which checkpoints are there at the end. `specs/Histories.antt`, `specs/Orders.antt` and
//! `specs/Checkpoints.antt` say each in a few lines.
//!
//! The functions do nothing: each states a law in its contract.
#![tactic(auto)]

ghost use Rattle.apx_promise.specs.Laws.{AllStoreInOrder, AllFindWhatTheyRead, AllEndWhatTheyBegan, AllGoOn, EndedAreDone, PicksAreHistories, SomeIsPicked, PicksAreFronts, OneIsPicked, LastSavesAreExact, LastSavesAscend, LastAreSaved, SavesAreMade, MadeMayBe, NoneAtFirst, SavedStays, NoMoreStays, SavedAtFirst, LastAtEnd, LastIsTheList, PutIsSave, PutsAreRepartition, DropIsCommit, OthersLeave};

/// The windows are stored one after the other, each once, from the first that the store hadn't yet.
pub fn windows_are_stored_in_order()
    ensures { AllStoreInOrder }
{}

/// Whatever is read is there: no block that may be read again is dropped, after any front of a history, and where a partition
/// begins a window, all that it reads have it.
pub fn blocks_are_there()
    ensures { AllFindWhatTheyRead }
{}

/// Whoever stores, finishes or kills what a partition has open has begun it, and nothing has closed the partition since.
pub fn workers_end_what_they_began()
    ensures { AllEndWhatTheyBegan }
{}

/// A run that hasn't stopped goes on: it has a choice, and each choice makes a longer history.
pub fn runs_go_on()
    ensures { AllGoOn }
{}

/// A run that has ended has stored each window once, and has performed each line of the script once, by its own event.
pub fn ended_runs_are_done()
    ensures { EndedAreDone }
{}

/// The numbers of an order pick exactly one history that ends. Each of its entries is by worker 0, and it begins with whatever
/// the same numbers pick.
pub fn orders_pick_one_history()
    ensures histories { PicksAreHistories }
    ensures some { SomeIsPicked }
    ensures fronts { PicksAreFronts }
    ensures one { OneIsPicked }
{}

/// The checkpoints that are there when a run has ended are those in the list of the last ones, which is in the order of their
/// ids: a run must have saved each of them, and no other may be left.
pub fn last_checkpoints_are_left()
    ensures listed { LastSavesAreExact }
    ensures ordered { LastSavesAscend }
    ensures saved { LastAreSaved }
{}

/// From event to event: what must be saved is what events have made, none of it below what is committed, and whatever an
/// event makes may be there.
pub fn checkpoints_are_made_by_events()
    ensures must { SavesAreMade }
    ensures may { MadeMayBe }
    ensures first { NoneAtFirst }
{}

/// A checkpoint store that each event changes by what it makes and drops has at every moment what must be saved, and no more
/// than what may be there where it began with nothing. So at the end it has the last checkpoints, and no other: its entries are
/// their list.
pub fn stores_keep_checkpoints()
    ensures saved { SavedStays }
    ensures no_more { NoMoreStays }
    ensures first { SavedAtFirst }
    ensures last { LastAtEnd }
    ensures list { LastIsTheList }
{}

/// What the calls of a checkpoint store leave of its entries is what the events ask for: one put for a Save, one for each new
/// partition for a Repartition, a drop for a Commit, and nothing for any other.
pub fn calls_change_stores_as_events_do()
    ensures save { PutIsSave }
    ensures repartition { PutsAreRepartition }
    ensures commit { DropIsCommit }
    ensures others { OthersLeave }
{}
