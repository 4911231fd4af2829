//! Claims: what a partition needs for a window.
ghost use Rattle.std.specs.Prelude.{◌≡◌, List, map, Some, None, Err, IsSome, IfOk, IfSome, IfNone};
ghost use Rattle.apx_tuple.specs.declared.progress.Progress.{Progress};
ghost use Rattle.apx_tuple.specs.declared.tuple.Tuple.{Tuple};
ghost use Rattle.apx_part.specs.Fed.{plan_in, AreWindows};
ghost use Rattle.apx_part.specs.Made.{made_of, IsMade, IsLargePart};
ghost use Rattle.apx_stores.specs.Caused.{IsTooLarge};
ghost use Rattle.apx_core.specs.Claim.{IsClaim, IsWork, worked};

use apx_blocks::large_only_in_pass;
use apx_course::Naming;
use apx_job::Job;
use apx_list::Block;
use apx_part::{Done, PartId, work_window_of};
use apx_tuple::{Progress, Short};
use std::alloc::Global;
use std::marker::{Model, PhantomData};

/// What comes to a partition in a window.
#[derive(Drop)]
pub(crate) struct Inputs {
    /// For each partition of the source on the left the blocks of the window.
    pub(crate) left: Vec<Vec<Block>>,
    /// The same on the right.
    pub(crate) right: Vec<Vec<Block>>,
}

/// The claim of a worker on a window of a partition: what the partition carries into it, and the blocks that it reads.
/// Only a core of the run that `J` names gives one.
///
/// ```text
/// let mut claim = core.start(worker, id, window)?;
/// let done = claim.work(alloc, core.job())?;
/// core.finish(claim, done)?;
/// ```
#[derive(Drop)]
pub struct Claim<J: Naming> {
    /// The partition.
    pub(crate) id: PartId,
    /// The window.
    pub(crate) window: u32,
    /// The worker who began it.
    pub(crate) worker: u8,
    /// What the partition carries into the window, until the work takes it.
    pub(crate) state: Option<Progress>,
    /// What comes to it.
    pub(crate) inputs: Inputs,
    /// The run.
    pub(crate) run: PhantomData<J>,
}

impl<J: Naming> Model for Claim<J> {
    ghost use Rattle.std.specs.Prelude.{map};
    ghost use Rattle.apx_core.specs.Claim.{Claimed, IsClaim};

    ghost Value = { Claimed };

    ghost view = { λ c. record {
      op = c.id.op;
      part = c.id.part;
      window = c.window;
      worker = c.worker;
      state = c.state;
      left = map (λ list. list.items) c.inputs.left.items;
      right = map (λ list. list.items) c.inputs.right.items;
    } };

    ghost invariant = { λ c. IsClaim J.run (record {
      op = c.id.op;
      part = c.id.part;
      window = c.window;
      worker = c.worker;
      state = c.state;
      left = map (λ list. list.items) c.inputs.left.items;
      right = map (λ list. list.items) c.inputs.right.items;
    }) };
}

impl<J: Naming> Claim<J> {
    /// The partition.
    pub fn id(&self) -> PartId
        ensures op { result.op ≡ self.now.op }
        ensures part { result.part ≡ self.now.part }
    {
        self.id
    }

    /// The window.
    pub fn window(&self) -> u32
        ensures { result ≡ self.now.window }
    {
        self.window
    }

    /// The worker who began it.
    pub fn worker(&self) -> u8
        ensures { result ≡ self.now.worker }
    {
        self.worker
    }

    /// What the partition carries into the window, until the work takes it.
    pub fn state(&self) -> Option<&Progress>
        ensures some { IfSome result (λ state. self.now.state ≡ Some state.now) }
        ensures none { IfNone result (self.now.state ≡ None) }
    {
        self.state.as_ref()
    }

    /// For each partition of the source on the left the blocks of the window.
    pub fn left(&self) -> &[Vec<Block>]
        ensures { map (λ list. list.items) result.now ≡ self.now.left }
    {
        &self.inputs.left
    }

    /// The same on the right.
    pub fn right(&self) -> &[Vec<Block>]
        ensures { map (λ list. list.items) result.now ≡ self.now.right }
    {
        &self.inputs.right
    }

    /// What is known of each claim.
    pub fn facts(&self)
        ensures { IsClaim J.run self.now }
    {
        let _ = &self.inputs;
    }

    /// The work of the window: what the partition carries is taken out of the claim. Where the checkpoint store and the spools tell,
    /// what is made is that of the one pass. `Large` comes only where what comes on a port is too large, or what is carried on or
    /// given; where these devices tell, only where the dataflow is.
    pub fn work(&mut self, alloc: Global, job: &Job) -> Result<Done, Short>
        requires job { job.now ≡ J.run.job }
        requires carries { IsSome self.old.state }
        ensures out { self.new ≡ worked self.old }
        ensures work { IfOk result (λ done. IsWork J.run self.new done) }
        ensures made { (g : Progress) (lefts rights : List (List Tuple)) → self.old.state ≡ Some g →
            AreWindows (plan_in J.run.job) self.old.window self.old.left lefts →
            AreWindows (plan_in J.run.job) self.old.window self.old.right rights →
            IfOk result (λ done. IsMade J.run.job self.old.op self.old.window
            (made_of J.run.job self.old.op self.old.part self.old.window g lefts rights) done.state done.rows done.blocks.items) }
        ensures large { (g : Progress) (lefts rights : List (List Tuple)) → self.old.state ≡ Some g →
            AreWindows (plan_in J.run.job) self.old.window self.old.left lefts →
            AreWindows (plan_in J.run.job) self.old.window self.old.right rights →
            result ≡ Err Short.Large → IsLargePart J.run.job self.old.op self.old.part self.old.window g lefts rights }
        ensures cause { result ≡ Err Short.Large → IsTooLarge J.run.job.flow J.run.told }
    {
        large_only_in_pass(job);
        match self.state.take() {
            Some(state) => work_window_of(
                alloc,
                job,
                self.id,
                self.window,
                state,
                &self.inputs.left,
                &self.inputs.right,
            ),
            None => unreachable!(),
        }
    }
}
