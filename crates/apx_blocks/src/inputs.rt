//! What the inputs of a job give.
ghost use Rattle.std.specs.List.{AllByRecursion};
ghost use Rattle.apx_keys.specs.Keys.{InputsHave, IsShort};
ghost use Rattle.apx_pass.specs.Groups.{IsInput};

use apx_input::Windows;
use apx_job::Job;

/// No input refuses a line: a law that each knows of its own lines.
fn are_accepted(inputs: &[Windows])
    ensures { AllByRecursion IsInput inputs.now }
{
    for input in inputs {
        input.count();
    }
}

/// No input of a job gives a tuple with a key of more than 1,024 bytes: a law.
pub(crate) fn keys_are_short(job: &Job)
    ensures { InputsHave IsShort job.now.flow }
{
    are_accepted(job.inputs());
}
