//! The event that begins a window.
ghost use Rattle.std.specs.Prelude.{◌≡◌, true, Some, IfOk, IsSome, OnOk, OnErr};
ghost use Rattle.apx_history.specs.Enabled.{can};
ghost use Rattle.apx_history.specs.declared.Event.TheVariants.{Start};
ghost use Rattle.apx_course.specs.Course.{Did, Stops};
ghost use Rattle.apx_held.specs.Holding.{holding, put_holding, taken};
ghost use Rattle.apx_core.specs.Claim.{IsClaim};

use crate::claims::Claim;
use crate::cores::{Core, known};
use crate::ports::lend_ports;
use apx_course::{Naming, Stopped};
use apx_device::{Keeper, Spools, Vault};
use apx_history::Event;
use apx_part::PartId;
use std::marker::PhantomData;

impl<K: Keeper + Drop, V: Vault + Drop, P: Spools + Drop, J: Naming> Core<K, V, P, J> {
    /// Start: a worker begins the next window of a partition, and gets what the partition carries into it and what comes to it.
    pub fn start(&mut self, worker: u8, id: PartId, window: u32) -> Result<Claim<J>, Stopped>
        requires { can J.run.plan self.old.stores.course.machine (Start id.op id.part window) ≡ true }
        ensures op { IfOk result (λ claim. claim.op ≡ id.op) }
        ensures part { IfOk result (λ claim. claim.part ≡ id.part) }
        ensures window { IfOk result (λ claim. claim.window ≡ window) }
        ensures worker { IfOk result (λ claim. claim.worker ≡ worker) }
        ensures carries { IfOk result (λ claim. IsSome claim.state) }
        ensures state { IfOk result (λ claim. claim.state ≡ (holding self.old.held id.op id.part).state) }
        ensures claim { IfOk result (λ claim. IsClaim J.run claim) }
        ensures did { OnOk result (Did J.run.plan self.old.stores.course self.new.stores.course worker (Start id.op id.part window)) }
        ensures stops { OnErr result (Stops J.run.plan self.old.stores.course self.new.stores.course worker) }
        ensures keeper { self.new.stores.keeper ≡ self.old.stores.keeper }
        ensures vault { self.new.stores.vault ≡ self.old.stores.vault }
        ensures spools { self.new.stores.spools ≡ self.old.stores.spools }
        ensures held { OnOk result
            (self.new.held ≡ put_holding self.old.held id.op id.part (taken (holding self.old.held id.op id.part))) }
        ensures stays { OnErr result (self.new.held ≡ self.old.held) }
    {
        let event = Event::Start {
            op: id.op,
            part: id.part,
            window,
        };
        self.stores.reserve(worker, event)?;
        self.stores.facts();
        known::<J>(&self.job);
        match lend_ports::<P::S, J>(self.alloc, &self.job, &mut self.contents, id.op, window) {
            Ok(inputs) => {
                let state = Some(self.contents.take(id.op as usize, id.part as usize));
                self.stores.add(worker, event);
                Ok(Claim {
                    id,
                    window,
                    worker,
                    state,
                    inputs,
                    run: PhantomData,
                })
            }
            Err(fault) => Err(self.stores.stop(worker, fault)),
        }
    }
}
