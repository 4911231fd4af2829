//! What is told of an application without running it.
ghost use Rattle.std.specs.Prelude.{◌≡◌, length};
ghost use Rattle.apx_cause.specs.Cause.{Rose};
ghost use Rattle.apx_load.specs.Hearing.{HasHeard};
ghost use Rattle.apx_load.specs.Refusals.{by_answers};
ghost use Rattle.apx_plan.specs.Plan as plans;
ghost use Rattle.apx_top.specs.Changes.{output_change};
ghost use Rattle.apx_top.specs.Plain.{HasToldTo, of_application, ok_text};

use crate::write::write_all;
use apx_device::{Folder, Out};
use apx_load::{Stop, application};
use apx_plan::plan_text;
use std::alloc::Global;

/// Judges an application, and writes `ok` where it is accepted.
pub(crate) fn check<F: Folder, O: Out>(
    alloc: Global,
    files: &mut F,
    name: &str,
    out: &mut O,
) -> Result<(), Stop>
    ensures told { F.told files.new ≡ F.told files.old }
    ensures heard { HasHeard F.tells (F.told files.old) (F.heard files.old) (F.heard files.new) (λ answers.
        (length answers ≡ 1) × HasToldTo (of_application ok_text (by_answers answers) name.now) answers
        (Rose (F.faults files.old) (F.faults files.new)) (output_change O.tells O.written O.faults out.old out.new) result) }
{
    application(alloc, files, name)?;
    Ok(write_all(out, b"ok\n")?)
}

/// Judges an application, and writes its plan where it is accepted.
pub(crate) fn plan<F: Folder, O: Out>(
    alloc: Global,
    files: &mut F,
    name: &str,
    out: &mut O,
) -> Result<(), Stop>
    ensures told { F.told files.new ≡ F.told files.old }
    ensures heard { HasHeard F.tells (F.told files.old) (F.heard files.old) (F.heard files.new) (λ answers.
        (length answers ≡ 1) × HasToldTo (of_application plans.plan_text (by_answers answers) name.now) answers
        (Rose (F.faults files.old) (F.faults files.new)) (output_change O.tells O.written O.faults out.old out.new) result) }
{
    let dag = application(alloc, files, name)?;
    let mut text = Vec::new(alloc);
    plan_text(&dag, &mut text)?;
    Ok(write_all(out, &text)?)
}
