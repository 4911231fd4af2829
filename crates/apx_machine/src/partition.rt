//! One partition: how far it is, what it has open, what it saved.
ghost use Rattle.std.specs.Prelude.{◌≡◌, ℕ, ◌<◌, length, get_or, Bool, [], ◌∷◌, is_none, unwrap_or, IfOk, OnErr};
ghost use Rattle.apx_history.specs.Plan.{has};
ghost use Rattle.apx_history.specs.State.{fresh, opens, open_window};
ghost use Rattle.std.specs.List.{filter};
ghost use Rattle.apx_history.specs.Effects.{saves, trimmed, back};
ghost use Rattle.apx_machine.specs.Changed.{changed};
ghost use Rattle.apx_machine.specs.Stays.{stays_by};

use std::alloc::{AllocError, Global};
use std::marker::Model;

/// Whether a window stands in a list.
fn stands_in(windows: &[u32], window: u32) -> bool
    ensures { result ≡ has windows.now window }
{
    for w in windows {
        if *w == window {
            return true;
        }
    }
    false
}

/// A partition of a machine.
#[derive(Debug, Drop)]
pub(crate) struct Partition {
    /// Its last finished window.
    at: u32,
    /// The window that it has open, with the worker who began it.
    opened: Option<(u32, u8)>,
    /// The windows whose states are saved, in ascending order.
    saved: Vec<u32>,
    /// Its recovery checkpoint.
    rc: u32,
    /// The last window whose blocks were dropped.
    floor: u32,
}

impl Model for Partition {
    ghost use Rattle.apx_history.specs.State.{Slot};

    ghost Value = { Slot };

    ghost view = { λ p. record { at = p.at; opened = p.opened; saved = p.saved.items; rc = p.rc; floor = p.floor } };
}

impl Partition {
    /// A partition that has just begun behind a window.
    pub(crate) fn fresh(alloc: Global, window: u32) -> Result<Partition, AllocError>
        ensures { IfOk result (λ p. p ≡ fresh window) }
    {
        let mut saved = Vec::new(alloc);
        saved.push(window)?;
        Ok(Partition {
            at: window,
            opened: None,
            saved,
            rc: window,
            floor: window,
        })
    }

    /// Its last finished window.
    pub fn at(&self) -> u32
        ensures { result ≡ self.now.at }
    {
        self.at
    }

    /// The window that it has open, with the worker who began it.
    pub fn opened(&self) -> Option<(u32, u8)>
        ensures { result ≡ self.now.opened }
    {
        self.opened
    }

    /// The window that it has open, 0 where it has none.
    pub(crate) fn open_window(&self) -> u32
        ensures { result ≡ unwrap_or (open_window self.now.opened) 0 }
    {
        match self.opened {
            Some((window, _)) => window,
            None => 0,
        }
    }

    /// Its recovery checkpoint.
    pub fn rc(&self) -> u32
        ensures { result ≡ self.now.rc }
    {
        self.rc
    }

    /// The last window whose blocks were dropped.
    pub fn floor(&self) -> u32
        ensures { result ≡ self.now.floor }
    {
        self.floor
    }

    /// Whether no window is open.
    pub fn is_closed(&self) -> bool
        ensures { result ≡ is_none self.now.opened }
    {
        self.opened.is_none()
    }

    /// Whether the window is open.
    pub fn opens(&self, window: u32) -> bool
        ensures { result ≡ opens window self.now.opened }
    {
        match self.opened {
            Some((open, _)) => open == window,
            None => false,
        }
    }

    /// Whether the window's state is saved.
    pub fn has(&self, window: u32) -> bool
        ensures { result ≡ has self.now.saved window }
    {
        stands_in(&self.saved, window)
    }

    /// How many windows are saved.
    pub(crate) fn saved_len(&self) -> usize
        ensures { result ≡ length self.now.saved }
    {
        self.saved.len()
    }

    /// A saved window.
    pub(crate) fn saved(&self, place: usize) -> u32
        requires { place < length self.now.saved }
        ensures { result ≡ get_or self.now.saved place 0 }
    {
        self.saved[place]
    }

    /// It changes.
    pub(crate) fn change(&mut self, change: Change)
        ensures { self.new ≡ changed change self.old }
    {
        match change {
            Change::Start { window, worker } => self.opened = Some((window, worker)),
            Change::Finish { window } => {
                self.at = window;
                self.opened = None;
            }
            Change::Advance { window } => self.rc = window,
            Change::Purge { window } => self.floor = window,
        }
    }

    /// Its state after a window is saved.
    pub(crate) fn save(&mut self, window: u32) -> Result<(), AllocError>
        ensures ok { IfOk result (λ _. self.new ≡ saves window self.old) }
        ensures err { OnErr result (self.new ≡ self.old) }
    {
        self.saved.push(window)?;
        Ok(())
    }

    /// What was saved below a window is dropped.
    pub(crate) fn trim(&mut self, window: u32)
        ensures { self.new ≡ trimmed window self.old }
    {
        drop_saved(&mut self.saved, Side::From { window });
    }

    /// It goes back to its recovery checkpoint.
    pub(crate) fn go_back(&mut self)
        ensures { self.new ≡ back self.old }
    {
        drop_saved(&mut self.saved, Side::UpTo { window: self.rc });
        self.at = self.rc;
        self.opened = None;
        self.floor = self.rc;
    }
}

/// A change of one partition that takes no memory.
#[derive(Clone, Copy, Debug)]
pub(crate) enum Change {
    /// It begins a window, by a worker.
    Start { window: u32, worker: u8 },
    /// It finishes a window.
    Finish { window: u32 },
    /// Its recovery checkpoint becomes a window.
    Advance { window: u32 },
    /// Its blocks up to a window are dropped.
    Purge { window: u32 },
}

/// The saved windows that stay.
#[derive(Clone, Copy, Debug)]
pub(crate) enum Side {
    /// Those from a window on.
    From { window: u32 },
    /// Those up to a window.
    UpTo { window: u32 },
}

/// Whether a saved window stays.
fn stays(side: Side, saved: u32) -> bool
    ensures { result ≡ stays_by side saved }
{
    match side {
        Side::From { window } => window <= saved,
        Side::UpTo { window } => saved <= window,
    }
}

/// Drops the saved windows that don't stay.
fn drop_saved(saved: &mut Vec<u32>, side: Side)
    ensures { saved.new.items ≡ filter (stays_by side) saved.old.items }
{
    let mut kept = 0;
    for i in 0..saved.len() {
        let window = saved[i];
        if stays(side, window) {
            saved.swap(kept, i);
            kept += 1;
        }
    }
    saved.truncate(kept);
}
