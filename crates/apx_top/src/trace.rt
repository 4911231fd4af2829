//! A run of a job whose journal is printed in place of its rows.
ghost use Rattle.std.specs.Prelude.{◌≡◌, ◌≤◌, ◌++◌, ◌⊎◌, Err, IsTrue, IsErr, IfErr, OnOk, option_map};
ghost use Rattle.std.specs.List.{AllByRecursion};
ghost use Rattle.apx_audit.specs.Text as audit;
ghost use Rattle.apx_audit.specs.Text.{IsEntry};
ghost use Rattle.apx_cause.specs.Cause.{Rose};
ghost use Rattle.apx_device.specs.Out.{GotFront};
ghost use Rattle.apx_load.specs.declared.stop.Stop.TheVariants.{StoreFailed};
ghost use Rattle.apx_load.specs.Hearing.{HasHeard};
ghost use Rattle.apx_load.specs.Stops.{IsCaused, no_causes};
ghost use Rattle.apx_pass.specs.Pass.{windows};
ghost use Rattle.apx_script.specs.Settings.{IsSettings};
ghost use Rattle.apx_tally.specs.Report as tally;
ghost use Rattle.apx_top.specs.Changes.{call_of, keeper_meaning, vault_meaning, spools_meaning, devices_change, output_change};
ghost use Rattle.apx_top.specs.Left.{left_of};
ghost use Rattle.apx_top.specs.Plain.{HasTracedFiles, IsTold};
ghost use Rattle.apx_top.specs.Run.{HasRun, IsUnprinted, printing_causes, row_count};
ghost use Rattle.apx_top.specs.Sent.{HasWritten};
ghost use Rattle.apx_top.specs.Trace.{HasTraced};
ghost use Rattle.apx_top.specs.Way.{in_order};

use crate::ended::{Outcome, unrun};
use crate::print::count_all;
use crate::sim::{print_report, run, share};
use crate::write::write_all;
use apx_audit::journal_text;
use apx_core::{Devices, RunJournal};
use apx_device::{Folder, Keeper, Out, Spool, Spools, Vault};
use apx_job::Job;
use apx_json::Name;
use apx_load::{Stop, job};
use apx_script::Settings;
use std::alloc::Global;

/// Runs the job of an application, of a script and of settings, and prints its journal and its report.
pub(crate) fn trace_files<
    F: Folder,
    K: Keeper + Drop,
    V: Vault + Drop,
    P: Spools + Drop,
    O: Out,
    E: Out,
>(
    alloc: Global,
    files: &mut F,
    name: &str,
    script: Option<&Name>,
    settings: Settings,
    order: u64,
    devices: Devices<K, V, P>,
    out: &mut O,
    err: &mut E,
) -> Outcome<K, V, P, <P::S as Spool>::Fault>
    requires settings { IsSettings settings }
    requires sound { IsTrue (K.sound devices.keeper) }
    requires vault_sound { IsTrue (V.sound devices.vault) }
    ensures told { F.told files.new ≡ F.told files.old }
    ensures heard { HasHeard F.tells (F.told files.old) (F.heard files.old) (F.heard files.new) (λ answers.
        HasTracedFiles name.now (option_map (λ n. n.now) script.entry) settings order
        (call_of answers (Rose (F.faults files.old) (F.faults files.new))
        (devices_change (keeper_meaning K.tells K.stored K.last K.faults) (vault_meaning V.tells V.held V.faults)
        (spools_meaning P.S.tells P.faults) devices result.devices)
        (output_change O.tells O.written O.faults out.old out.new)
        (output_change E.tells E.written E.faults err.old err.new)) (left_of result)) }
    ensures unsaid { IsTold result.end → err.new ≡ err.old }
{
    match job(alloc, files, name, script, settings) {
        Ok(job) => trace(alloc, job, order, devices, out, err),
        Err(stop) => unrun(devices, Err(stop)),
    }
}

/// Runs a job over devices, in the order that a number picks, and then prints its journal on `out` and the report on `err`.
fn trace<K: Keeper + Drop, V: Vault + Drop, P: Spools + Drop, O: Out, E: Out>(
    alloc: Global,
    job: Job,
    order: u64,
    devices: Devices<K, V, P>,
    out: &mut O,
    err: &mut E,
) -> Outcome<K, V, P, <P::S as Spool>::Fault>
    requires sound { IsTrue (K.sound devices.keeper) }
    requires vault_sound { IsTrue (V.sound devices.vault) }
    ensures ran { HasRun (IsUnprinted (output_change O.tells O.written O.faults out.old out.new))
        (λ es end. HasTraced job es
        (devices_change (keeper_meaning K.tells K.stored K.last K.faults) (vault_meaning V.tells V.held V.faults)
        (spools_meaning P.S.tells P.faults) devices result.devices)
        (output_change O.tells O.written O.faults out.old out.new)
        (output_change E.tells E.written E.faults err.old err.new) end)
        job (in_order order)
        (devices_change (keeper_meaning K.tells K.stored K.last K.faults) (vault_meaning V.tells V.held V.faults)
        (spools_meaning P.S.tells P.faults) devices result.devices)
        (left_of result) }
    ensures unsaid { IsTold result.end → err.new ≡ err.old }
{
    let Ok((job, shared)) = share(alloc, job) else {
        return unrun(devices, Err(Stop::Memory));
    };
    match run(alloc, shared, order, devices) {
        Ok(mut run) => {
            let end = print(alloc, &job, &run.journal, &mut run.devices.keeper, out, err);
            run.printed(end)
        }
        Err(outcome) => outcome,
    }
}

/// Prints the journal of a run, and then the report of it. The rows are counted before anything is printed, so that a sink's store
/// that fails leaves nothing on `out`.
fn print<K: Keeper, O: Out, E: Out>(
    alloc: Global,
    job: &Job,
    journal: &RunJournal,
    keeper: &mut K,
    out: &mut O,
    err: &mut E,
) -> Result<(), Stop>
    requires sound { IsTrue (K.sound keeper.old) }
    requires all { K.last keeper.old ≡ windows job.now.flow }
    ensures stored { K.stored keeper.new ≡ K.stored keeper.old }
    ensures last { K.last keeper.new ≡ K.last keeper.old }
    ensures later { K.faults keeper.old ≤ K.faults keeper.new }
    ensures journal { OnOk result (IsTrue O.tells → O.written out.new ≡ O.written out.old ++ audit.journal_text journal.now) }
    ensures entries { OnOk result (AllByRecursion IsEntry journal.now) }
    ensures report { OnOk result (IsTrue K.tells → IsTrue E.tells →
        E.written err.new ≡ E.written err.old ++ tally.report_text (windows job.now.flow) (row_count (K.stored keeper.old)) journal.now) }
    ensures front { IsErr result → IsTrue O.tells → GotFront (audit.journal_text journal.now) (O.written out.old) (O.written out.new) }
    ensures unprinted { result ≡ Err StoreFailed → O.written out.new ≡ O.written out.old }
    ensures report_front { IsErr result → IsTrue K.tells → IsTrue E.tells →
        GotFront (tally.report_text (windows job.now.flow) (row_count (K.stored keeper.old)) journal.now) (E.written err.old) (E.written err.new) }
    ensures unsaid { IsTold result → err.new ≡ err.old }
    ensures stop { IfErr result (IsCaused (printing_causes (Rose (K.faults keeper.old) (K.faults keeper.new))
        (Rose (O.faults out.old) (O.faults out.new) ⊎ Rose (E.faults err.old) (E.faults err.new)))) }
{
    let rows = count_all(alloc, keeper, job.windows())?;
    print_journal(alloc, journal, out)?;
    print_report(alloc, job, journal, rows, err)
}

/// Prints the text of a journal. It is made whole before its first byte is written.
fn print_journal<O: Out>(alloc: Global, journal: &RunJournal, out: &mut O) -> Result<(), Stop>
    ensures written { HasWritten O.tells (audit.journal_text journal.now) result (O.written out.old) (O.written out.new) }
    ensures entries { OnOk result (AllByRecursion IsEntry journal.now) }
    ensures stop { IfErr result (IsCaused (record no_causes { output = Rose (O.faults out.old) (O.faults out.new) })) }
{
    let mut text = Vec::new(alloc);
    journal_text(journal.journal(), &mut text)?;
    Ok(write_all(out, &text)?)
}
