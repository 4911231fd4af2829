//! A run of a job through the core, on one thread, and what is printed of it.
ghost use Rattle.std.specs.Prelude.{◌≡◌, ◌≤◌, ◌++◌, ◌⊎◌, None, IsTrue, IsErr, IfOk, IfErr, OnOk, MatchResult, length, take, ⊤};
ghost use Rattle.apx_cause.specs.Cause.{Rose};
ghost use Rattle.apx_device.specs.Out.{GotFront};
ghost use Rattle.apx_load.specs.Stops.{IsCaused, no_causes};
ghost use Rattle.apx_pass.specs.Pass.{windows};
ghost use Rattle.apx_pass.specs.Texts.{windows_text};
ghost use Rattle.apx_tally.specs.Report as tally;
ghost use Rattle.apx_top.specs.Changes.{keeper_meaning, vault_meaning, spools_meaning, devices_change, output_change};
ghost use Rattle.apx_top.specs.Left.{left_of};
ghost use Rattle.apx_top.specs.Plain.{IsTold};
ghost use Rattle.apx_top.specs.Run.{HasRun, HasRunAs, HasPrinted, HasReported, IsUnprinted, printing_causes, row_count};
ghost use Rattle.apx_top.specs.Sent.{HasWritten};
ghost use Rattle.apx_top.specs.Way.{in_order};

use crate::ended::{Finished, Outcome, unrun};
use crate::faults::{settle, stop_of_start};
use crate::print::{count_all, print_all};
use crate::write::write_all;
use apx_core::{Devices, RunJournal};
use apx_device::{Keeper, Out, Spool, Spools, Vault};
use apx_job::Job;
use apx_load::Stop;
use apx_sim::simulate;
use apx_tally::report_text;
use std::alloc::{AllocError, Global};
use std::sync::Arc;

/// A job, twice.
pub(crate) fn share(alloc: Global, job: Job) -> Result<(Arc<Job>, Arc<Job>), AllocError>
    ensures { IfOk result (λ both. (both.0.value ≡ job) × (both.1.value ≡ job)) }
{
    let job = Arc::new(alloc, job)?;
    let shared = job.clone()?;
    Ok((job, shared))
}

/// Runs a job over devices, in the order that a number picks, until its run ends or stops.
///
/// No run begins over a store that has more windows than the job. That is no store of the job, and it has no status of its own.
pub(crate) fn run<K: Keeper + Drop, V: Vault + Drop, P: Spools + Drop>(
    alloc: Global,
    job: Arc<Job>,
    order: u64,
    devices: Devices<K, V, P>,
) -> Result<Finished<K, V, P>, Outcome<K, V, P, <P::S as Spool>::Fault>>
    requires sound { IsTrue (K.sound devices.keeper) }
    requires vault_sound { IsTrue (V.sound devices.vault) }
    ensures ran { MatchResult result
        (λ run. HasRunAs {F = P.S.Fault} job.value (in_order order)
        (devices_change (keeper_meaning K.tells K.stored K.last K.faults) (vault_meaning V.tells V.held V.faults)
        (spools_meaning P.S.tells P.faults) devices run.devices) run.journal None)
        (λ outcome. HasRun ⊤ (λ es end. ⊥) job.value (in_order order)
        (devices_change (keeper_meaning K.tells K.stored K.last K.faults) (vault_meaning V.tells V.held V.faults)
        (spools_meaning P.S.tells P.faults) devices outcome.devices) (left_of outcome)) }
    ensures readable { IfOk result (λ run. IsTrue (K.sound run.devices.keeper)) }
    ensures all { IfOk result (λ run. K.last run.devices.keeper ≡ windows job.value.flow) }
{
    if job.windows() < devices.keeper.last() {
        return Err(unrun(devices, Err(Stop::Memory)));
    }
    match simulate(alloc, job, devices, order) {
        Ok(closed) => settle(closed),
        Err((devices, fault)) => Err(unrun(devices, Err(stop_of_start(fault)))),
    }
}

/// Runs a job over devices, in the order that a number picks, and then prints what the sink's store has on `out` and the
/// report on `err`.
pub(crate) fn sim<K: Keeper + Drop, V: Vault + Drop, P: Spools + Drop, O: Out, E: Out>(
    alloc: Global,
    job: Job,
    order: u64,
    devices: Devices<K, V, P>,
    out: &mut O,
    err: &mut E,
) -> Outcome<K, V, P, <P::S as Spool>::Fault>
    requires sound { IsTrue (K.sound devices.keeper) }
    requires vault_sound { IsTrue (V.sound devices.vault) }
    ensures ran { HasRun (IsUnprinted (output_change O.tells O.written O.faults out.old out.new))
        (λ es end. HasPrinted job es
        (devices_change (keeper_meaning K.tells K.stored K.last K.faults) (vault_meaning V.tells V.held V.faults)
        (spools_meaning P.S.tells P.faults) devices result.devices)
        (output_change O.tells O.written O.faults out.old out.new)
        (output_change E.tells E.written E.faults err.old err.new) end)
        job (in_order order)
        (devices_change (keeper_meaning K.tells K.stored K.last K.faults) (vault_meaning V.tells V.held V.faults)
        (spools_meaning P.S.tells P.faults) devices result.devices)
        (left_of result) }
    ensures unsaid { IsTold result.end → err.new ≡ err.old }
{
    let Ok((job, shared)) = share(alloc, job) else {
        return unrun(devices, Err(Stop::Memory));
    };
    match run(alloc, shared, order, devices) {
        Ok(mut run) => {
            let end = print(alloc, &job, &run.journal, &mut run.devices.keeper, out, err);
            run.printed(end)
        }
        Err(outcome) => outcome,
    }
}

/// Runs a job over devices, in the order that a number picks, and then prints the report on `out`.
pub(crate) fn report<K: Keeper + Drop, V: Vault + Drop, P: Spools + Drop, O: Out>(
    alloc: Global,
    job: Job,
    order: u64,
    devices: Devices<K, V, P>,
    out: &mut O,
) -> Outcome<K, V, P, <P::S as Spool>::Fault>
    requires sound { IsTrue (K.sound devices.keeper) }
    requires vault_sound { IsTrue (V.sound devices.vault) }
    ensures { HasRun (IsUnprinted (output_change O.tells O.written O.faults out.old out.new))
        (λ es end. HasReported job es
        (devices_change (keeper_meaning K.tells K.stored K.last K.faults) (vault_meaning V.tells V.held V.faults)
        (spools_meaning P.S.tells P.faults) devices result.devices)
        (output_change O.tells O.written O.faults out.old out.new) end)
        job (in_order order)
        (devices_change (keeper_meaning K.tells K.stored K.last K.faults) (vault_meaning V.tells V.held V.faults)
        (spools_meaning P.S.tells P.faults) devices result.devices)
        (left_of result) }
{
    let Ok((job, shared)) = share(alloc, job) else {
        return unrun(devices, Err(Stop::Memory));
    };
    match run(alloc, shared, order, devices) {
        Ok(mut run) => {
            let end = print_counts(alloc, &job, &run.journal, &mut run.devices.keeper, out);
            run.printed(end)
        }
        Err(outcome) => outcome,
    }
}

/// Prints what a run stored, and then its report.
pub(crate) fn print<K: Keeper, O: Out, E: Out>(
    alloc: Global,
    job: &Job,
    journal: &RunJournal,
    keeper: &mut K,
    out: &mut O,
    err: &mut E,
) -> Result<(), Stop>
    requires sound { IsTrue (K.sound keeper.old) }
    requires all { K.last keeper.old ≡ windows job.now.flow }
    ensures stored { K.stored keeper.new ≡ K.stored keeper.old }
    ensures last { K.last keeper.new ≡ K.last keeper.old }
    ensures later { K.faults keeper.old ≤ K.faults keeper.new }
    ensures rows { OnOk result (IsTrue K.tells → IsTrue O.tells →
        O.written out.new ≡ O.written out.old ++ windows_text job.now.settings.base 1 (K.stored keeper.old)) }
    ensures report { OnOk result (IsTrue K.tells → IsTrue E.tells →
        E.written err.new ≡ E.written err.old ++ tally.report_text (windows job.now.flow) (row_count (K.stored keeper.old)) journal.now) }
    ensures rows_front { IsErr result → IsTrue K.tells → IsTrue O.tells →
        GotFront (windows_text job.now.settings.base 1 (K.stored keeper.old)) (O.written out.old) (O.written out.new) }
    ensures report_front { IsErr result → IsTrue K.tells → IsTrue E.tells →
        GotFront (tally.report_text (windows job.now.flow) (row_count (K.stored keeper.old)) journal.now)
        (E.written err.old) (E.written err.new) }
    ensures unsaid { IsTold result → err.new ≡ err.old }
    ensures stop { IfErr result (IsCaused (printing_causes (Rose (K.faults keeper.old) (K.faults keeper.new))
        (Rose (O.faults out.old) (O.faults out.new) ⊎ Rose (E.faults err.old) (E.faults err.new)))) }
{
    let rows = print_all(alloc, keeper, job.settings().base, job.windows(), out)?;
    print_report(alloc, job, journal, rows, err)
}

/// Counts the rows that a run stored, and prints its report.
fn print_counts<K: Keeper, O: Out>(
    alloc: Global,
    job: &Job,
    journal: &RunJournal,
    keeper: &mut K,
    out: &mut O,
) -> Result<(), Stop>
    requires sound { IsTrue (K.sound keeper.old) }
    requires all { K.last keeper.old ≡ windows job.now.flow }
    ensures stored { K.stored keeper.new ≡ K.stored keeper.old }
    ensures last { K.last keeper.new ≡ K.last keeper.old }
    ensures later { K.faults keeper.old ≤ K.faults keeper.new }
    ensures written { IsTrue K.tells →
        HasWritten O.tells (tally.report_text (windows job.now.flow) (row_count (K.stored keeper.old)) journal.now)
        result (O.written out.old) (O.written out.new) }
    ensures stop { IfErr result (IsCaused
        (printing_causes (Rose (K.faults keeper.old) (K.faults keeper.new)) (Rose (O.faults out.old) (O.faults out.new)))) }
{
    let rows = count_all(alloc, keeper, job.windows())?;
    print_report(alloc, job, journal, rows, out)
}

/// Prints the report of a run that stored so many rows. It is made whole before its first byte is written.
pub(crate) fn print_report<O: Out>(
    alloc: Global,
    job: &Job,
    journal: &RunJournal,
    rows: u64,
    out: &mut O,
) -> Result<(), Stop>
    ensures written { HasWritten O.tells (tally.report_text (windows job.now.flow) rows journal.now) result
        (O.written out.old) (O.written out.new) }
    ensures unsaid { IsTold result → out.new ≡ out.old }
    ensures stop { IfErr result (IsCaused (record no_causes { output = Rose (O.faults out.old) (O.faults out.new) })) }
{
    let mut text = Vec::new(alloc);
    report_text(job, journal.journal(), rows, &mut text)?;
    Ok(write_all(out, &text)?)
}
