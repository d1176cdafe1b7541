ghost use Rattle.std.specs.Prelude.{◌≡◌, IfOk};
ghost use Rattle.op_relabel.specs.Checks.{AllPass};
ghost use Rattle.op_relabel.specs.Relabelled as spec;

use crate::actions::apply;
use crate::prepared::{PreparedStep, all_prepared};
use crate::step::Step;
use op_base::{Labels, List, NoMemory};
use std::alloc::Global;

/// The label set that the steps leave, one after the other, or none where one of them drops it. Each
/// step's pattern is read: for many label sets prepare the steps once, and call `relabel_by`.
pub fn relabel(
    alloc: Global,
    steps: &List<Step>,
    labels: &Labels,
) -> Result<Option<Labels>, NoMemory>
    requires { AllPass steps.now }
    ensures { IfOk result (λ left. left ≡ spec.relabelled steps.now labels.now) }
{
    relabel_by(alloc, &all_prepared(alloc, steps.as_slice())?, labels)
}

/// The label set that prepared steps leave.
pub fn relabel_by(
    alloc: Global,
    steps: &List<PreparedStep>,
    labels: &Labels,
) -> Result<Option<Labels>, NoMemory>
    ensures { IfOk result (λ left. left ≡ spec.relabelled steps.now labels.now) }
{
    run(alloc, steps.as_slice(), labels.copy()?)
}

fn run(alloc: Global, steps: &[PreparedStep], labels: Labels) -> Result<Option<Labels>, NoMemory>
    ensures { IfOk result (λ left. left ≡ spec.relabelled steps.now labels) }
{
    let mut current = labels;
    for step in steps {
        match apply(alloc, step, current)? {
            Some(next) => current = next,
            None => return Ok(None),
        }
    }
    Ok(Some(current))
}
