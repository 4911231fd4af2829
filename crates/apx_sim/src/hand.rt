//! What is held for a window between its begin and its end.
ghost use Rattle.std.specs.Prelude.{◌≡◌, Some, None, Err, IsSome, IfOk};
ghost use Rattle.apx_stores.specs.Caused.{IsTooLarge};
ghost use Rattle.apx_core.specs.Claim.{IsWork};
ghost use Rattle.apx_sim.specs.Hand.{IsOfClaim};

use apx_core::{Claim, Naming};
use apx_job::Job;
use apx_part::Done;
use apx_tuple::Short;
use std::alloc::Global;
use std::marker::Model;

/// What is held for a window between its begin and its end: the claim, and what its work made once that is done.
#[derive(Drop)]
pub(crate) struct Hand<J: Naming> {
    /// The claim.
    claim: Claim<J>,
    /// What its work made, once it is done.
    done: Option<Done>,
}

impl<J: Naming> Model for Hand<J> {
    ghost use Rattle.apx_sim.specs.Hand.{Handed, IsHand};

    ghost Value = { Handed };

    ghost view = { λ h. record { claim = h.claim; done = h.done } };

    ghost invariant = { λ h. IsHand J.run h.claim h.done };
}

impl<J: Naming> Hand<J> {
    /// A claim whose work isn't done.
    pub(crate) fn of(claim: Claim<J>) -> Hand<J>
        requires { IsSome claim.state }
        ensures { result ≡ record { claim = claim; done = None } }
    {
        Hand { claim, done: None }
    }

    /// A claim with what its work made.
    pub(crate) fn worked(claim: Claim<J>, done: Done) -> Hand<J>
        requires { IsWork J.run claim done }
        ensures { result ≡ record { claim = claim; done = Some done } }
    {
        Hand {
            claim,
            done: Some(done),
        }
    }

    /// The claim with what its work makes, which is done now where it wasn't yet. Where the checkpoint store and the spools tell, it
    /// is too large only where the dataflow is.
    pub(crate) fn work(self, alloc: Global, job: &Job) -> Result<(Claim<J>, Done), Short>
        requires { job.now ≡ J.run.job }
        ensures claim { IfOk result (λ r. IsOfClaim self.claim r.0) }
        ensures work { IfOk result (λ r. IsWork J.run r.0 r.1) }
        ensures cause { result ≡ Err Short.Large → IsTooLarge J.run.job.flow J.run.told }
    {
        let Hand { mut claim, done } = self;
        match done {
            Some(done) => Ok((claim, done)),
            None => {
                let done = claim.work(alloc, job)?;
                Ok((claim, done))
            }
        }
    }

    /// The claim.
    pub(crate) fn claim(self) -> Claim<J>
        ensures { result ≡ self.claim }
    {
        self.claim
    }
}
