//! Where a run begins.
ghost use Rattle.std.specs.Prelude.{◌≡◌, ℕ, ◌<◌, ◌≤◌, Bool, true, length, get_or, map, take, replicate, IfOk};
ghost use Rattle.apx_history.specs.Plan.{no_operator};
ghost use Rattle.apx_history.specs.State.{fresh};
ghost use Rattle.apx_history.specs.Journals.{beginning};
ghost use Rattle.apx_machine.specs.Begun.{begun};

use crate::engine::Engine;
use crate::group::Group;
use crate::plan::Plan;
use std::alloc::{AllocError, Global};

/// The operators of a plan behind a window.
fn groups(alloc: Global, plan: &Plan, from: u32) -> Result<Vec<Group>, AllocError>
    ensures { IfOk result (λ ops. ops.items ≡ map (begun from) plan.now.operators) }
{
    let mut ops = Vec::new(alloc);
    for op in 0..plan.len() {
        ops.push(Group::fresh(alloc, 0, plan.first(op), from)?)?;
    }
    Ok(ops)
}

/// So many flags that are set.
fn flags(alloc: Global, count: usize) -> Result<Vec<bool>, AllocError>
    ensures { IfOk result (λ flags. flags.items ≡ replicate count true) }
{
    vec![in alloc; true; count]
}

impl Engine {
    /// A plan's engine where a run begins behind a window, over a store with the windows up to `stored`.
    #[tactic(auto, unfolding(apx_history::specs::Journals::beginning), using(crate::proofs::Begun::all_set))]
    pub(crate) fn begin(
        alloc: Global,
        plan: Plan,
        stored: u32,
        from: u32,
    ) -> Result<Engine, AllocError>
        ensures { IfOk result (λ e. e ≡ record { plan = plan; state = beginning plan stored from }) }
    {
        let ops = groups(alloc, &plan, from)?;
        let left = flags(alloc, plan.lines())?;
        Ok(Engine {
            plan,
            ops,
            committed: from,
            stored,
            left,
            ended: false,
            fault: None,
        })
    }
}
