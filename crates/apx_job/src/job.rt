//! Jobs that are accepted.

use crate::judge::judge;
use crate::parts::Parts;
use apx_dag::Dag;
use apx_history::Line as Command;
use apx_input::Windows;
use apx_script::{Line, Script, ScriptRefusal, Settings};
use apx_tuple::Bag;
use std::alloc::{AllocError, Global};
use std::marker::Model;

/// A job: an accepted application with what its inputs read, an accepted script, and settings within their limits.
///
/// ```text
/// let job = Job::of(alloc, dag, inputs, script, Settings::default())?;
/// assert_eq!(job.in_force(1, 5), 3);
/// ```
#[derive(Drop)]
pub struct Job {
    /// Its parts, with a script that is judged.
    parts: Parts,
}

impl Model for Job {
    ghost use Rattle.apx_pass.specs.Job as pass;
    ghost use Rattle.apx_job.specs.Job as job;
    ghost use Rattle.apx_script.specs.Settings.{IsSettings};

    ghost Value = { pass.Job };

    ghost view = { λ j. j.parts };

    ghost use Rattle.apx_job.specs.Prepared.{settings_of};

    ghost invariant = { λ j. job.IsJob j.parts × IsSettings (settings_of j.parts.settings) };
}

impl Job {
    ghost use Rattle.std.specs.Prelude.{◌≡◌, ℕ, ◌<◌, ◌≤◌, length, IfOk, IsTrue};
    ghost use Rattle.apx_pass.specs.Graph.{node_at, is_input};
    ghost use Rattle.apx_pass.specs.Pass.{inputs_before, windows, input_at, rows_of_input};
    ghost use Rattle.apx_history.specs.Kept.{IsPlan};
    ghost use Rattle.apx_history.specs.Plan.{line, count_or};
    ghost use Rattle.apx_job.specs.Job.{IsJob, plan_of, boundary_of, in_force};
    ghost use Rattle.apx_script.specs.Settings.{IsSettings};
    ghost use Rattle.apx_job.specs.Prepared.{job_of, settings_view};
    ghost use Rattle.apx_job.specs.Refusal.{Answers};

    /// The job of an application, of what its inputs read in the order of the file, of a script and of settings.
    ///
    /// `Line` comes exactly where a line is refused, with its number and the reason:
    ///
    /// - 3: no operator has its name;
    /// - 4: its window isn't 1 to the number of windows;
    /// - 5: a repartition's window isn't a multiple of the checkpoint interval;
    /// - 6: its count isn't 1 to 8;
    /// - 7: it names an input or the sink;
    /// - 8: an earlier line repartitions the same operator at the same window;
    /// - 10: `written` names an operator that isn't the sink;
    /// - 9: the part of a kill isn't below the number in force at its window.
    ///
    /// The first line that is refused is told, where each line is tried for all reasons but 9, in this order, and only
    /// then each for 9. `Memory` where memory ran out.
    pub fn of(
        alloc: Global,
        dag: Dag,
        inputs: Vec<Windows>,
        script: Script,
        settings: Settings,
    ) -> Result<Job, ScriptRefusal>
        requires inputs { length inputs.items ≡ inputs_before dag (length dag) }
        requires settings { IsSettings settings }
        ensures { Answers result (job_of dag inputs.items script settings) }
    {
        let parts = Parts::of(alloc, dag, inputs, script, settings)?;
        judge(&parts)?;
        Ok(Job { parts })
    }

    /// How many windows there are: the most of any input, at most 20,000.
    pub fn windows(&self) -> u32
        ensures count { result ≡ windows self.now.flow }
        ensures few { result ≤ 20000 }
        ensures job { IsJob self.now }
    {
        self.parts.windows
    }

    /// How many partitions the operator has in the epoch that holds the window.
    pub fn in_force(&self, op: u16, window: u32) -> u8
        requires op { op < length self.now.flow.nodes }
        requires low { 1 ≤ window }
        requires high { window ≤ windows self.now.flow }
        ensures { result ≡ in_force self.now op window }
    {
        self.parts.in_force(op, window)
    }

    /// The boundary of the operator's epoch that holds the window: 0, or the window of a repartition.
    pub fn boundary(&self, op: u16, window: u32) -> u32
        requires op { op < length self.now.flow.nodes }
        requires low { 1 ≤ window }
        requires high { window ≤ windows self.now.flow }
        ensures { result ≡ boundary_of self.now op window }
    {
        self.parts.boundary(op, window)
    }

    /// The graph.
    pub fn dag(&self) -> &Dag
        ensures { result.now ≡ self.now.flow.nodes }
    {
        &self.parts.dag
    }

    /// What its inputs read, in the order of the file.
    pub fn inputs(&self) -> &[Windows]
        ensures { result.now ≡ self.now.flow.inputs }
    {
        &self.parts.inputs
    }

    /// The settings.
    pub fn settings(&self) -> Settings
        ensures value { settings_view result ≡ self.now.settings }
        ensures limits { IsSettings result }
    {
        self.parts.settings
    }

    /// The script's commands, in order.
    pub fn lines(&self) -> &[Line]
        ensures { result.now ≡ self.now.script }
    {
        self.parts.script.lines()
    }

    /// The script's commands with the numbers of their operators, in order.
    pub fn commands(&self) -> &[Command]
        ensures { result.now ≡ (plan_of self.now).lines }
    {
        &self.parts.commands
    }

    /// What histories ask of a plan holds of the plan of each job: a graph without loops, one sink that has one
    /// partition, and commands that name what is there. There are at most 1,000 commands, and none of them gives an
    /// operator more than 8 partitions. A law; the function does nothing.
    pub fn is_planned(&self)
        ensures plan { IsPlan (plan_of self.now) }
        ensures counts { (l : ℕ) → l < length (plan_of self.now).lines → count_or 0 (line (plan_of self.now) l).act ≤ 8 }
        ensures few { length (plan_of self.now).lines ≤ 1000 }
    {
        let dag = self.dag();
        let _operators = dag.len();
        let _places = dag.order().len();
        let _windows = self.windows();
        let _settings = self.settings();
        let _lines = self.parts.script.lines();
    }

    /// The bag of the tuples of an input's window; no tuples where it has no such window.
    pub fn bag(&self, op: u16, window: u32) -> Result<Bag, AllocError>
        requires op { op < length self.now.flow.nodes }
        requires input { IsTrue (is_input (node_at self.now.flow.nodes op).role) }
        ensures { IfOk result (λ bag. bag ≡ rows_of_input (input_at self.now.flow op) window) }
    {
        self.parts.bag(op, window)
    }
}
