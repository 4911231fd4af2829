//! What a job consists of, before it is judged.

ghost use Rattle.std.specs.Prelude.{◌≡◌, ◌<◌, ◌≤◌, length, IfOk};
ghost use Rattle.apx_pass.specs.Pass.{windows_of};
ghost use Rattle.apx_job.specs.Job.{boundary_of, in_force};
ghost use Rattle.apx_job.specs.Prepared.{job_of};

use crate::command::{boundary_in, commands_in, number_in};
use apx_dag::Dag;
use apx_history::Line as Command;
use apx_input::Windows;
use apx_script::{Script, Settings};
use apx_tuple::Bag;
use std::alloc::{AllocError, Global};
use std::marker::Model;

/// A dataflow, a script and settings that belong together, whether or not the script is accepted.
#[derive(Drop)]
pub(crate) struct Parts {
    /// The graph.
    pub(crate) dag: Dag,
    /// What each input reads, in the order of the file.
    pub(crate) inputs: Vec<Windows>,
    /// The script.
    pub(crate) script: Script,
    /// The script's commands, with the numbers of their operators.
    pub(crate) commands: Vec<Command>,
    /// The settings.
    pub(crate) settings: Settings,
    /// The most windows of any input.
    pub(crate) windows: u32,
}

impl Model for Parts {
    ghost use Rattle.apx_pass.specs.Job as pass;
    ghost use Rattle.apx_job.specs.Prepared.{job_of, ArePrepared};

    ghost Value = { pass.Job };

    ghost view = { λ p. job_of p.dag p.inputs.items p.script p.settings };

    ghost invariant = { λ p. ArePrepared (job_of p.dag p.inputs.items p.script p.settings) p.commands.items p.windows };
}

/// The most windows of any input, at most 20,000.
fn window_count(inputs: &[Windows]) -> u32
    ensures count { result ≡ windows_of inputs.now }
    ensures few { result ≤ 20000 }
{
    let mut count = 0;
    for input in inputs {
        count = count.max(input.count());
    }
    count
}

impl Parts {
    ghost use Rattle.std.specs.Prelude.{◌≡◌, ◌<◌, length, IfOk};
    ghost use Rattle.apx_pass.specs.Graph.{node_at};
    ghost use Rattle.apx_pass.specs.Pass.{inputs_before, input_at, rows_of_input};
    ghost use Rattle.apx_job.specs.Job.{boundary_of, in_force};
    ghost use Rattle.apx_job.specs.Prepared.{job_of};

    /// These, with the numbers of the operators that the script names.
    pub(crate) fn of(
        alloc: Global,
        dag: Dag,
        inputs: Vec<Windows>,
        script: Script,
        settings: Settings,
    ) -> Result<Parts, AllocError>
        requires { length inputs.items ≡ inputs_before dag (length dag) }
        ensures { IfOk result (λ parts. parts ≡ job_of dag inputs.items script settings) }
    {
        let commands = commands_in(alloc, &dag, script.lines())?;
        let windows = window_count(&inputs);
        Ok(Parts {
            dag,
            inputs,
            script,
            commands,
            settings,
            windows,
        })
    }

    /// The boundary of the operator's epoch that holds a window.
    pub(crate) fn boundary(&self, op: u16, window: u32) -> u32
        ensures { result ≡ boundary_of self.now op window }
    {
        boundary_in(&self.commands, op, window)
    }

    /// How many partitions the operator has in that epoch.
    pub(crate) fn in_force(&self, op: u16, window: u32) -> u8
        requires { op < length self.now.flow.nodes }
        ensures { result ≡ in_force self.now op window }
    {
        let boundary = boundary_in(&self.commands, op, window);
        number_in(&self.commands, op, boundary, self.dag.node(op).partitions)
    }

    /// The bag of the tuples of an input's window.
    #[tactic(auto, unfolding(apx_pass::specs::Pass::input_at))]
    pub(crate) fn bag(&self, op: u16, window: u32) -> Result<Bag, AllocError>
        requires { op < length self.now.flow.nodes }
        ensures { IfOk result (λ bag. bag ≡ rows_of_input (input_at self.now.flow op) window) }
    {
        match self.inputs.get(self.dag.inputs_before(op)) {
            Some(input) => input.bag(window),
            None => Ok(Bag::new(*self.inputs.allocator())),
        }
    }
}
