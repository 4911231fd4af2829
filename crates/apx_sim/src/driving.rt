//! A core driven from its begin until it goes on no more.
ghost use Rattle.std.specs.Prelude.{◌≡◌, ◌≤◌, ℕ, [], length, IsTrue};
ghost use Rattle.apx_history.specs.Journals.{beginning};
ghost use Rattle.apx_history.specs.Laws.{bound};
ghost use Rattle.apx_drive.specs.Driven.{IsDriven, drawn, behind};
ghost use Rattle.apx_stores.specs.Crashes.{RowsFollow, EntriesFollow};
ghost use Rattle.apx_core.specs.Crashes.{IsOfRun};
ghost use Rattle.apx_sim.specs.Bench.{place_of};

use crate::bench::Bench;
use apx_core::{Core, CoreFault, Naming};
use apx_device::{Keeper, Spools, Vault};
use apx_hands::Table;
use apx_history::{choices_are_exact, is_bounded};
use rand_core::utils::NextWord;
use rand_pcg::Lcg64Xsh32;
use std::alloc::Global;

/// The stream of the generator.
const STREAM: u64 = 0;

/// The next number of a generator.
#[tactic(auto, unfolding(apx_drive::specs::Driven::drawn, apx_drive::specs::Driven::behind))]
fn draw(words: &mut Lcg64Xsh32) -> u32
    ensures drawn { result ≡ drawn words.old }
    ensures behind { words.new ≡ behind words.old }
{
    words.next_word()
}

/// Does one event after the other, as the order picks them, until the run goes on no more.
///
/// The loop is that of `apx_drive::drive`, which drives any run that implements a trait. A bench doesn't implement it, since the
/// checker doesn't cover calls from a trait's methods of what may go to other threads, as the spools of a core may.
fn drive<K: Keeper + Drop, V: Vault + Drop, P: Spools + Drop, J: Naming>(
    bench: Bench<K, V, P, J>,
    order: u64,
) -> Bench<K, V, P, J>
    requires { bench.stores.course.journal ≡ [] }
    ensures driven { IsDriven J.run.plan order (beginning J.run.plan J.run.stored J.run.from) (place_of result.stores.course) }
    ensures bound { length result.stores.course.journal ≤ bound J.run.plan }
    ensures rows { RowsFollow J.run K.tells bench.stores.course.machine.stored K.time K.left bench.stores.keeper result.stores.keeper }
    ensures entries { IsTrue V.tells → EntriesFollow (IsOfRun J.run.job J.run.told)
        V.time V.left V.held bench.stores.vault result.stores.vault }
{
    is_bounded();
    choices_are_exact();
    let mut bench = bench;
    let mut words = Lcg64Xsh32::new(order, STREAM);
    bench.facts();
    while bench.is_running() {
        let at = draw(&mut words) % bench.count();
        let event = bench.pick(at);
        let done = bench.perform(event);
        bench.facts();
        if done.is_err() {
            return bench;
        }
    }
    bench
}

/// Stops a core before its first event, for want of memory.
fn stopped<K: Keeper + Drop, V: Vault + Drop, P: Spools + Drop, J: Naming>(
    core: Core<K, V, P, J>,
) -> Core<K, V, P, J>
    requires { core.stores.course.journal ≡ [] }
    ensures driven { (order : ℕ) →
        IsDriven J.run.plan order (beginning J.run.plan J.run.stored J.run.from) (place_of result.stores.course) }
    ensures bound { length result.stores.course.journal ≤ bound J.run.plan }
    ensures rows { RowsFollow J.run K.tells core.stores.course.machine.stored K.time K.left core.stores.keeper result.stores.keeper }
    ensures entries { IsTrue V.tells → EntriesFollow (IsOfRun J.run.job J.run.told)
        V.time V.left V.held core.stores.vault result.stores.vault }
{
    let mut core = core;
    core.facts();
    is_bounded();
    core.fail(0, CoreFault::Memory);
    core.facts();
    core
}

/// Drives a core, in which nothing has happened, until its run ends or stops.
///
/// Each event is the one that the order picks among those that may come next. The work of a window is done where it is first
/// needed, as the sink's store gets its rows or as it ends. Where there is no memory for what is held between, the run stops
/// before its first event.
pub(crate) fn sim<K: Keeper + Drop, V: Vault + Drop, P: Spools + Drop, J: Naming>(
    alloc: Global,
    core: Core<K, V, P, J>,
    order: u64,
) -> Core<K, V, P, J>
    requires { core.stores.course.journal ≡ [] }
    ensures driven { IsDriven J.run.plan order (beginning J.run.plan J.run.stored J.run.from) (place_of result.stores.course) }
    ensures bound { length result.stores.course.journal ≤ bound J.run.plan }
    ensures rows { RowsFollow J.run K.tells core.stores.course.machine.stored K.time K.left core.stores.keeper result.stores.keeper }
    ensures entries { IsTrue V.tells → EntriesFollow (IsOfRun J.run.job J.run.told)
        V.time V.left V.held core.stores.vault result.stores.vault }
{
    match Bench::new(alloc, core) {
        Ok(bench) => drive(bench, order).core(),
        Err(core) => stopped(core),
    }
}
