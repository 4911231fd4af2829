//! Why a run stops before its end.
use crate::refusal::Refusal;
use apx_audit::AuditRefusal;
use apx_cmd::CommandRefusal;
use apx_dag::AppRefusal;
use apx_device::{Failed, KeepRefusal};
use apx_json::{JsonRefusal, Name};
use apx_script::ScriptRefusal;
use apx_tuple::Short;
use std::alloc::{AllocError, AllocFailed};

/// Why a run stops before its end.
#[derive(Debug, Drop)]
pub enum Stop {
    /// The words or a file are refused.
    Refused(Refusal),
    /// The folder failed at this file.
    CannotRead { name: Name },
    /// The checkpoint store failed.
    VaultFailed,
    /// The sink's store failed.
    StoreFailed,
    /// A spool failed, or none could be made.
    SpoolFailed,
    /// The checkpoint store gave bytes that spell no state.
    StateDamaged,
    /// A spool gave bytes that are not the block it was asked for.
    BlockDamaged,
    /// The output failed.
    OutputFailed,
    /// Memory ran out.
    Memory,
    /// A bag or a state is too large.
    Large,
}

impl From<AllocError> for Stop {
    ghost use Rattle.std.specs.Prelude.{◌≡◌};
    ghost use Rattle.apx_load.specs.declared.stop.Stop.TheVariants.{Memory};

    ghost from_gives = { λ _ stop. stop ≡ Memory };

    fn from(_error: AllocError) -> Stop {
        Stop::Memory
    }
}

impl<T: Drop> From<AllocFailed<T>> for Stop {
    ghost use Rattle.std.specs.Prelude.{◌≡◌};
    ghost use Rattle.apx_load.specs.declared.stop.Stop.TheVariants.{Memory};

    ghost from_gives = { λ _ stop. stop ≡ Memory };

    fn from(_error: AllocFailed<T>) -> Stop {
        Stop::Memory
    }
}

impl From<JsonRefusal> for Stop {
    ghost use Rattle.std.specs.Prelude.{◌≡◌};
    ghost use Rattle.apx_load.specs.Stops.{stop_of_json};

    ghost from_gives = { λ refusal stop. stop ≡ stop_of_json refusal };

    fn from(refusal: JsonRefusal) -> Stop {
        match refusal {
            JsonRefusal::Syntax => Stop::Refused(Refusal::NoJson),
            JsonRefusal::Shape { place } => Stop::Refused(Refusal::WrongShape { place }),
            JsonRefusal::Memory => Stop::Memory,
        }
    }
}

impl From<AppRefusal> for Stop {
    ghost use Rattle.std.specs.Prelude.{◌≡◌};
    ghost use Rattle.apx_load.specs.Stops.{stop_of_graph};

    ghost from_gives = { λ refusal stop. stop ≡ stop_of_graph refusal };

    fn from(refusal: AppRefusal) -> Stop {
        match refusal {
            AppRefusal::Refused { code, place } => Stop::Refused(Refusal::BrokenRule {
                code,
                place,
            }),
            AppRefusal::Memory => Stop::Memory,
        }
    }
}

impl From<CommandRefusal> for Stop {
    ghost use Rattle.std.specs.Prelude.{◌≡◌};
    ghost use Rattle.apx_load.specs.Stops.{stop_of_words};

    ghost from_gives = { λ refusal stop. stop ≡ stop_of_words refusal };

    fn from(refusal: CommandRefusal) -> Stop {
        match refusal {
            CommandRefusal::Usage => Stop::Refused(Refusal::NotACommand),
            CommandRefusal::Memory => Stop::Memory,
        }
    }
}

impl From<ScriptRefusal> for Stop {
    ghost use Rattle.std.specs.Prelude.{◌≡◌};
    ghost use Rattle.apx_load.specs.Stops.{stop_of_script};

    ghost from_gives = { λ refusal stop. stop ≡ stop_of_script refusal };

    fn from(refusal: ScriptRefusal) -> Stop {
        match refusal {
            ScriptRefusal::Line { line, why } => Stop::Refused(Refusal::RefusedCommand {
                line,
                why,
            }),
            ScriptRefusal::Memory => Stop::Memory,
        }
    }
}

impl From<AuditRefusal> for Stop {
    ghost use Rattle.std.specs.Prelude.{◌≡◌};
    ghost use Rattle.apx_load.specs.Stops.{stop_of_journal};

    ghost from_gives = { λ refusal stop. stop ≡ stop_of_journal refusal };

    fn from(refusal: AuditRefusal) -> Stop {
        match refusal {
            AuditRefusal::Line { line, why } => Stop::Refused(Refusal::RefusedEntry { line, why }),
            AuditRefusal::Memory => Stop::Memory,
        }
    }
}

impl From<KeepRefusal> for Stop {
    ghost use Rattle.std.specs.Prelude.{◌≡◌};
    ghost use Rattle.apx_load.specs.Stops.{stop_of_store};

    ghost from_gives = { λ refusal stop. stop ≡ stop_of_store refusal };

    fn from(refusal: KeepRefusal) -> Stop {
        match refusal {
            KeepRefusal::Failed => Stop::StoreFailed,
            KeepRefusal::Memory => Stop::Memory,
        }
    }
}

impl From<Failed> for Stop {
    ghost use Rattle.std.specs.Prelude.{◌≡◌};
    ghost use Rattle.apx_load.specs.declared.stop.Stop.TheVariants.{OutputFailed};

    ghost from_gives = { λ _ stop. stop ≡ OutputFailed };

    fn from(_failed: Failed) -> Stop {
        Stop::OutputFailed
    }
}

impl From<Short> for Stop {
    ghost use Rattle.std.specs.Prelude.{◌≡◌};
    ghost use Rattle.apx_load.specs.Stops.{stop_of_short};

    ghost from_gives = { λ short stop. stop ≡ stop_of_short short };

    fn from(short: Short) -> Stop {
        match short {
            Short::Memory => Stop::Memory,
            Short::Large => Stop::Large,
        }
    }
}
