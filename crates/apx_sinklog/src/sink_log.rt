// The sink's store as a list of records on a disk, with the windows in memory too.
ghost use Rattle.std.specs.Prelude.{◌≡◌, ◌⊎◌, ◌<◌, ◌≤◌, ◌+◌, ◌^◌, ◌++◌, ◌∷◌, [], ℕ, List, Ok, Err, vec_len, length, map, IsTrue, IfOk, IfErr, OnOk, OnErr};
ghost use Rattle.std.proofs.Common.{refl};
ghost use Rattle.apx_tuple.specs.Size.{size_by};
ghost use Rattle.apx_tuple.specs.Tuple.{tuple_key};
ghost use Rattle.apx_cause.specs.Cause.{HasCause};
ghost use Rattle.apx_cause.specs.Steps.{Steps};
ghost use Rattle.apx_device.specs.Keeper.{LeftBy, StaysSound};
ghost use Rattle.apx_disk.specs.Entries.{entry_of};
ghost use Rattle.apx_disk.specs.Opening.{ReadsOne};
ghost use Rattle.apx_sinklog.specs.Windows.{windows_in, sink_of};
ghost use Rattle.apx_sinklog.specs.Logged.{logged_windows};

use crate::logged::LoggedWindow;
use apx_device::{KeepRefusal, Keeper};
use apx_disk::{Disk, DiskRefusal, LogRefusal, Record, Records};
use apx_tuple::Tuple;
use std::alloc::{AllocError, Global};

/// The sink's store on a disk: windows 1, 2 and so on, each a record of the disk's file, and all of them in memory too.
///
/// ```
/// let mut log = SinkLog::open(alloc, MemoryDisk::new(alloc, Vec::new(alloc)))?;
/// log.commit(1, &rows)?;
/// ```
#[derive(Drop)]
pub struct SinkLog<D: Disk + Drop> {
    /// The records, one for each window.
    records: Records<D>,
    /// Where the windows lie.
    alloc: Global,
    /// The windows in order, each as it stands in the log.
    windows: Vec<LoggedWindow>,
    /// Each has a number of 32 bits.
    ghost countable: { vec_len windows < 2 ^ 32 },
    /// As long as it is sound, the file spells the windows.
    ghost spelled: { IsTrue records.sound → IsTrue D.tells → sink_of (D.seen records.disk) ≡ Ok (logged_windows windows.items) },
}

impl<D: Disk + Drop> SinkLog<D> {
    /// Opens the log that the file spells. An empty file is a new log.
    ///
    /// A crash within the call leaves a file that spells what one of the images spells that a crash at its start may
    /// leave. A body of another form is damage at its gate, found once the records have been opened.
    pub fn open(alloc: Global, disk: D) -> Result<SinkLog<D>, (D, LogRefusal)>
        ensures windows { IsTrue D.tells → IfOk result (λ log.
            sink_of (D.seen disk) ≡ Ok (logged_windows log.windows.items)) }
        ensures same { IsTrue D.tells → IfOk result (λ log. sink_of (D.seen log.records.disk) ≡ sink_of (D.seen disk)) }
        ensures sound { IfOk result (λ log. IsTrue log.records.sound) }
        ensures damaged { IsTrue D.tells → IfErr result (λ stop. (at : ℕ) → stop.1 ≡ LogRefusal.Damaged at →
            sink_of (D.seen disk) ≡ Err at) }
        ensures crash { IsTrue D.tells → IfOk result (λ log. Steps (D.time disk) (D.time log.records.disk) (D.left disk)
            (D.left log.records.disk) (ReadsOne sink_of (D.left disk (D.time disk)))) }
        ensures crash_err { IsTrue D.tells → IfErr result (λ stop. Steps (D.time disk) (D.time stop.0) (D.left disk)
            (D.left stop.0) (ReadsOne sink_of (D.left disk (D.time disk)))) }
        ensures faults { IfOk result (λ log. D.faults disk ≤ D.faults log.records.disk) }
        ensures cause { IfErr result (λ stop. HasCause (D.faults disk) (D.faults stop.0) (stop.1 ≡ LogRefusal.Disk)) }
    {
        let (records, read) = match Records::open(alloc, disk) {
            Ok(opened) => opened,
            Err(stop) => return Err(stop),
        };
        match windows_of(alloc, &read) {
            Ok(windows) => Ok(SinkLog {
                records,
                alloc,
                windows,
            }),
            Err(refusal) => Err((records.close(), refusal)),
        }
    }

    /// Gives the disk back.
    pub fn close(self) -> D
        ensures { result ≡ self.records.disk }
    {
        let SinkLog {
            records,
            alloc: _,
            windows: _,
        } = self;
        records.close()
    }

    /// Adds the next window's rows: the work of `Keeper::commit`, with what a crash within it leaves in the file.
    pub fn store(&mut self, window: u32, rows: &[Tuple]) -> Result<(), KeepRefusal>
        requires sound { IsTrue self.old.records.sound }
        requires next { window ≡ length (logged_windows self.old.windows.items) + 1 }
        requires small { size_by tuple_key rows.now < 4294967232 }
        ensures windows { LeftBy result (logged_windows self.old.windows.items)
            (logged_windows self.old.windows.items ++ rows.now ∷ []) (logged_windows self.new.windows.items) }
        ensures last { LeftBy result (length (logged_windows self.old.windows.items)) (length (logged_windows self.old.windows.items) + 1)
            (length (logged_windows self.new.windows.items)) }
        ensures sound { StaysSound result self.new.records.sound }

        // A crash within the call leaves a file that opens to the windows from before it, or to these and the new one.
        ensures crash { IsTrue D.tells → Steps (D.time self.old.records.disk) (D.time self.new.records.disk)
            (D.left self.old.records.disk) (D.left self.new.records.disk)
            (λ image. (sink_of image ≡ Ok (logged_windows self.old.windows.items))
            ⊎ (sink_of image ≡ Ok (logged_windows self.old.windows.items ++ rows.now ∷ []))) }
        ensures cause { HasCause (D.faults self.old.records.disk) (D.faults self.new.records.disk)
            (result ≡ Err KeepRefusal.Failed) }
    {
        let Ok(logged) = LoggedWindow::of(self.alloc, window, rows) else {
            return Err(KeepRefusal::Memory);
        };
        let Ok(()) = self.windows.reserve(1) else {
            return Err(KeepRefusal::Memory);
        };
        match self.records.add(&logged.body) {
            Ok(()) => {
                self.windows.push_reserved(logged);
                Ok(())
            }
            Err(DiskRefusal::Memory) => Err(KeepRefusal::Memory),
            Err(DiskRefusal::Failed) => Err(KeepRefusal::Failed),
        }
    }
}

// The windows of some records, the first of which is to be that of window 1.
fn windows_of(alloc: Global, read: &[Record]) -> Result<Vec<LoggedWindow>, LogRefusal>
    ensures windows { IfOk result (λ windows. windows_in 1 (map entry_of read.now) ≡ Ok (logged_windows windows.items)) }
    ensures few { IfOk result (λ windows. vec_len windows < 2 ^ 32) }
    ensures damaged { (at : ℕ) → result ≡ Err (LogRefusal.Damaged at) → windows_in 1 (map entry_of read.now) ≡ Err at }
    ensures no_disk { result ≡ Err LogRefusal.Disk → ⊥ }
{
    let mut windows = Vec::new(alloc);
    for (number, record) in read.iter().enumerate() {
        let Ok(found) = LoggedWindow::read(alloc, number as u64 + 1, &record.body) else {
            return Err(LogRefusal::Memory);
        };
        let Some(window) = found else {
            return Err(LogRefusal::Damaged { at: record.gate });
        };
        let Ok(()) = keep(&mut windows, window) else {
            return Err(LogRefusal::Memory);
        };
    }
    Ok(windows)
}

// One window more.
fn keep(windows: &mut Vec<LoggedWindow>, window: LoggedWindow) -> Result<(), AllocError>
    ensures { OnOk result (windows.new.items ≡ windows.old.items ++ window ∷ []) }
{
    windows.push(window)?;
    Ok(())
}

impl<D: Disk + Drop> Keeper for SinkLog<D> {
    ghost use Rattle.apx_disk.specs.Opening.{LeavesOne, settled_content};

    ghost tells = { D.tells };

    ghost stored = { λ log. logged_windows log.windows.items };

    ghost last = { λ log. length (logged_windows log.windows.items) };

    ghost sound = { λ log. log.records.sound };

    ghost faults = { λ log. D.faults log.records.disk };

    ghost time = { λ log. D.time log.records.disk };

    ghost left = { λ log t windows. LeavesOne sink_of (D.left log.records.disk t) windows };

    ghost counted = { λ log tells. refl };

    ghost settled = { λ log windows tells sound left.
        settled_content sink_of (D.seen log.records.disk) (D.left log.records.disk (D.time log.records.disk))
        (logged_windows log.windows.items) windows (log.records.ready sound tells).only (log.spelled sound tells) left };

    ghost counts = { λ log t windows tells le left.
        (left.0, D.counts log.records.disk t left.0 tells le left.1, left.2) };

    fn faults(&self) -> u64 {
        self.records.faults()
    }

    fn sound(&self) -> bool {
        self.records.is_sound()
    }

    fn last(&self) -> u32 {
        self.windows.len() as u32
    }

    fn commit(&mut self, window: u32, rows: &[Tuple]) -> Result<(), KeepRefusal> {
        self.store(window, rows)
    }

    fn rows(&mut self, alloc: Global, window: u32) -> Result<Vec<Tuple>, KeepRefusal> {
        self.windows[window as usize - 1]
            .rows(alloc)
            .map_err(|_| KeepRefusal::Memory)
    }
}
