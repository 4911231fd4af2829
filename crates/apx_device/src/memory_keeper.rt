// A keeper in memory, and one whose calls fail by number.
ghost use Rattle.std.specs.Prelude.{◌≡◌, ◌<◌, ◌≤◌, ◌+◌, ◌-◌, ◌^◌, ◌++◌, ◌∷◌, [], true, Some, is_some, vec_len, length, slice_get, IsTrue, IfOk, ◌⊎◌};
ghost use Rattle.std.proofs.Common.{refl};
ghost use Rattle.apx_tuple.specs.Size.{size_by};
ghost use Rattle.apx_tuple.specs.Tuple.{tuple_key};
ghost use Rattle.apx_cause.specs.Cause.{HasCause};
ghost use Rattle.apx_cause.specs.Steps.{Steps, OneOf};
ghost use Rattle.apx_device.specs.Keeper.{LeftBy, StaysSound};
ghost use Rattle.apx_device.specs.Rows.{rows_in};

use crate::failing::FailingCalls;
use crate::rows::{append_rows, read_rows};
use crate::{KeepRefusal, Keeper};
use apx_tuple::Tuple;
use std::alloc::{AllocError, Global};

/// The rows of one window, as one piece of bytes: ten bytes a row beside its key.
#[derive(Drop)]
pub(crate) struct StoredWindow {
    /// How many rows there are.
    count: u32,
    /// The rows' bytes, one row behind the other.
    bytes: Vec<u8>,
    /// The bytes are so many rows.
    ghost whole: { is_some (rows_in count bytes.items) ≡ true },
}

/// The rows of each window in order. No call of it fails.
///
/// ```
/// let mut keeper = MemoryKeeper::new(alloc);
/// keeper.commit(1, &rows)?;
/// let again = keeper.rows(alloc, 1)?;
/// ```
#[derive(Drop)]
pub struct MemoryKeeper {
    /// Where the windows lie.
    alloc: Global,
    /// The windows, from window 1 on.
    windows: Vec<StoredWindow>,
    /// Each has a number of 32 bits.
    ghost countable: { vec_len windows < 2 ^ 32 },
}

impl MemoryKeeper {
    ghost use Rattle.apx_device.specs.MemoryKeeper.{windows_of};

    /// A keeper without windows.
    pub fn new(alloc: Global) -> Self
        ensures { windows_of result ≡ [] }
    {
        MemoryKeeper {
            alloc,
            windows: Vec::new(alloc),
        }
    }
}

impl StoredWindow {
    ghost use Rattle.apx_device.specs.MemoryKeeper.{rows_of};

    /// The window with these rows.
    fn of(alloc: Global, rows: &[Tuple]) -> Result<StoredWindow, AllocError>
        requires { size_by tuple_key rows.now < 4294967232 }
        ensures { IfOk result (λ window. rows_of window ≡ rows.now) }
    {
        let mut bytes = Vec::new(alloc);
        append_rows(rows, &mut bytes)?;
        Ok(StoredWindow {
            count: rows.len() as u32,
            bytes,
        })
    }

    /// The rows of the window.
    fn rows(&self, alloc: Global) -> Result<Vec<Tuple>, AllocError>
        ensures { IfOk result (λ rows. rows.items ≡ rows_of self.now) }
    {
        match read_rows(alloc, self.count, &self.bytes)? {
            Some(rows) => Ok(rows),
            None => unreachable!(),
        }
    }
}

impl Keeper for MemoryKeeper {
    ghost use Rattle.std.specs.Prelude.{length};
    ghost use Rattle.apx_device.specs.MemoryKeeper.{windows_of};

    ghost tells = { true };

    ghost stored = { windows_of };

    ghost last = { λ keeper. length (windows_of keeper) };

    ghost sound = { λ _. true };

    ghost faults = { λ _. 0 };

    ghost time = { λ _. 0 };

    ghost left = { λ _ _ _. ⊥ };

    ghost counted = { λ keeper tells. refl };

    ghost settled = { λ keeper windows tells sound left. absurd left };

    ghost counts = { λ keeper t windows tells le left. left };

    fn faults(&self) -> u64 {
        0
    }

    fn sound(&self) -> bool {
        true
    }

    fn last(&self) -> u32 {
        self.windows.len() as u32
    }

    fn commit(&mut self, _window: u32, rows: &[Tuple]) -> Result<(), KeepRefusal> {
        let Ok(stored) = StoredWindow::of(self.alloc, rows) else {
            return Err(KeepRefusal::Memory);
        };
        match self.windows.push(stored) {
            Ok(()) => Ok(()),
            Err(_) => Err(KeepRefusal::Memory),
        }
    }

    fn rows(&mut self, alloc: Global, window: u32) -> Result<Vec<Tuple>, KeepRefusal> {
        self.windows[window as usize - 1]
            .rows(alloc)
            .map_err(|_| KeepRefusal::Memory)
    }
}

/// A keeper in memory of which some commits and reads fail.
///
/// ```
/// // The first call is to fail, and stores nothing.
/// let mut keeper = FailingKeeper::new(MemoryKeeper::new(alloc), vec![in alloc; 1]?, false);
/// ```
#[derive(Drop)]
pub struct FailingKeeper {
    /// The windows.
    keeper: MemoryKeeper,
    /// The commits and reads so far, and which are to fail.
    calls: FailingCalls,
    /// Whether a failing commit is stored before it fails.
    stores_first: bool,
}

impl FailingKeeper {
    ghost use Rattle.apx_device.specs.Failing.{BeginsWith};
    ghost use Rattle.apx_device.specs.MemoryKeeper.{windows_of, failing_windows_of};

    /// The keeper, of which the commits and reads with these numbers, counted together from 1, are
    /// to fail. With `stores_first` a failing commit is stored before it fails, where there is memory for it.
    pub fn new(keeper: MemoryKeeper, calls: Vec<u64>, stores_first: bool) -> Self
        ensures windows { failing_windows_of result ≡ windows_of keeper }
        ensures calls { BeginsWith result.calls calls.items }
        ensures stores_first { result.stores_first ≡ stores_first }
    {
        FailingKeeper {
            keeper,
            calls: FailingCalls::new(calls),
            stores_first,
        }
    }
}

impl Keeper for FailingKeeper {
    ghost use Rattle.std.specs.Prelude.{length};
    ghost use Rattle.apx_device.specs.Failing.{CalledOnce, NextFails};
    ghost use Rattle.apx_device.specs.MemoryKeeper.{failing_windows_of};

    ghost tells = { true };

    ghost stored = { failing_windows_of };

    ghost last = { λ keeper. length (failing_windows_of keeper) };

    ghost sound = { λ _. true };

    ghost faults = { λ keeper. keeper.calls.faults };

    ghost time = { λ _. 0 };

    ghost left = { λ _ _ _. ⊥ };

    ghost counted = { λ keeper tells. refl };

    ghost settled = { λ keeper windows tells sound left. absurd left };

    ghost counts = { λ keeper t windows tells le left. left };

    fn faults(&self) -> u64 {
        self.calls.faults
    }

    fn sound(&self) -> bool {
        true
    }

    fn last(&self) -> u32 {
        self.keeper.last()
    }

    fn commit(&mut self, window: u32, rows: &[Tuple]) -> Result<(), KeepRefusal>
        requires sound { IsTrue true }
        requires next { window ≡ length (failing_windows_of self.old) + 1 }
        requires small { size_by tuple_key rows.now < 4294967232 }
        ensures stored { LeftBy result (failing_windows_of self.old) (failing_windows_of self.old ++ rows.now ∷ [])
            (failing_windows_of self.new) }
        ensures last { LeftBy result (length (failing_windows_of self.old)) (length (failing_windows_of self.old) + 1)
            (length (failing_windows_of self.new)) }
        ensures sound { StaysSound result true }
        ensures crash { Steps 0 0 (λ _ _. ⊥) (λ _ _. ⊥)
            (OneOf (failing_windows_of self.old) (failing_windows_of self.old ++ rows.now ∷ [])) }
        ensures cause { HasCause self.old.calls.faults self.new.calls.faults (result ≡ Err KeepRefusal.Failed) }

        // It fails exactly at the calls that are to fail, and is stored then only where it is to be.
        ensures called { CalledOnce self.old.calls self.new.calls (result ≡ Err KeepRefusal.Failed) }
        ensures only { result ≡ Err KeepRefusal.Failed → NextFails self.old.calls }
        ensures unstored { result ≡ Err KeepRefusal.Failed →
            IsTrue self.old.stores_first ⊎ (failing_windows_of self.new ≡ failing_windows_of self.old) }
        ensures same { self.new.stores_first ≡ self.old.stores_first }
    {
        if !self.calls.next_fails() {
            return self.keeper.commit(window, rows);
        }
        if self.stores_first {
            let _ = self.keeper.commit(window, rows);
        }
        Err(KeepRefusal::Failed)
    }

    fn rows(&mut self, alloc: Global, window: u32) -> Result<Vec<Tuple>, KeepRefusal>
        requires sound { IsTrue true }
        requires from_one { 1 ≤ window }
        requires there { window ≤ length (failing_windows_of self.old) }
        ensures rows { IfOk result (λ rows. slice_get (failing_windows_of self.old) (window - 1) ≡ Some rows.items) }
        ensures stored { failing_windows_of self.new ≡ failing_windows_of self.old }
        ensures last { length (failing_windows_of self.new) ≡ length (failing_windows_of self.old) }
        ensures sound { StaysSound result true }
        ensures crash { Steps 0 0 (λ _ _. ⊥) (λ _ _. ⊥) (λ windows. windows ≡ failing_windows_of self.old) }
        ensures cause { HasCause self.old.calls.faults self.new.calls.faults (result ≡ Err KeepRefusal.Failed) }

        // It fails exactly at the calls that are to fail.
        ensures called { CalledOnce self.old.calls self.new.calls (result ≡ Err KeepRefusal.Failed) }
        ensures only { result ≡ Err KeepRefusal.Failed → NextFails self.old.calls }
        ensures same { self.new.stores_first ≡ self.old.stores_first }
    {
        if self.calls.next_fails() {
            return Err(KeepRefusal::Failed);
        }
        self.keeper.rows(alloc, window)
    }
}
