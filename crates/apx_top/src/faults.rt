//! What is told of a run that stopped.
ghost use Rattle.std.specs.Prelude.{◌≡◌, Some, None, MatchResult};
ghost use Rattle.apx_top.specs.Faults.{stop_of_start, stop_of, shown_of, spool_of};
ghost use Rattle.apx_top.specs.Left.{left_of, HasStoppedWith};

use crate::ended::{Finished, History, Outcome, Shown};
use apx_core::{Closed, CoreFault, StartFault};
use apx_load::Stop;

/// A fault of a run, by what is told of it.
#[derive(Drop)]
pub(crate) struct Fault<F> {
    /// Why it stopped.
    pub(crate) stop: Stop,
    /// The bytes that spelled nothing.
    pub(crate) shown: Option<Shown>,
    /// How a spool failed.
    pub(crate) spool: Option<F>,
}

/// Why no run began.
pub(crate) fn stop_of_start(fault: StartFault) -> Stop
    ensures { result ≡ stop_of_start fault }
{
    match fault {
        StartFault::Spools => Stop::SpoolFailed,
        StartFault::Memory => Stop::Memory,
    }
}

/// A fault with nothing beside its stop.
fn bare<F>(stop: Stop) -> Fault<F>
    ensures stop { result.stop ≡ stop }
    ensures shown { result.shown ≡ None }
    ensures spool { result.spool ≡ None }
{
    Fault {
        stop,
        shown: None,
        spool: None,
    }
}

/// A fault of bytes that spelled nothing.
fn showing<F>(stop: Stop, shown: Shown) -> Fault<F>
    ensures stop { result.stop ≡ stop }
    ensures shown { result.shown ≡ Some shown }
    ensures spool { result.spool ≡ None }
{
    Fault {
        stop,
        shown: Some(shown),
        spool: None,
    }
}

/// What is told of the fault that stopped a run.
fn told<F: Drop>(fault: CoreFault<F>) -> Fault<F>
    ensures stop { result.stop ≡ stop_of fault }
    ensures shown { result.shown ≡ shown_of fault }
    ensures spool { result.spool ≡ spool_of fault }
{
    match fault {
        CoreFault::Vault => bare(Stop::VaultFailed),
        CoreFault::Keeper => bare(Stop::StoreFailed),
        CoreFault::Spools => bare(Stop::SpoolFailed),
        CoreFault::Spool(fault) => Fault {
            stop: Stop::SpoolFailed,
            shown: None,
            spool: Some(fault),
        },
        CoreFault::State { id, bytes } => showing(Stop::StateDamaged, Shown::State { id, bytes }),
        CoreFault::Block {
            op,
            part,
            number,
            window,
            index,
            last,
            bytes,
        } => showing(
            Stop::BlockDamaged,
            Shown::Block {
                op,
                part,
                number,
                window,
                index,
                last,
                bytes,
            },
        ),
        CoreFault::Memory => bare(Stop::Memory),
        CoreFault::Large => bare(Stop::Large),
    }
}

/// How a run that is closed ended: it came to its end, or a fault stopped it.
pub(crate) fn settle<K: Drop, V: Drop, P: Drop, F: Drop>(
    closed: Closed<K, V, P, F>,
) -> Result<Finished<K, V, P>, Outcome<K, V, P, F>>
    ensures { MatchResult result
        (λ run. (closed.fault ≡ None) × (run.devices ≡ closed.devices) × (run.journal ≡ closed.journal))
        (λ outcome. (outcome.devices ≡ closed.devices) × HasStoppedWith closed.journal closed.fault (left_of outcome)) }
{
    let Closed {
        devices,
        journal,
        fault,
    } = closed;
    match fault {
        None => Ok(Finished { devices, journal }),
        Some(fault) => {
            let fault = told(fault);
            Err(Outcome {
                end: Err(fault.stop),
                devices,
                journal: History::Core(journal),
                shown: fault.shown,
                spool: fault.spool,
            })
        }
    }
}
