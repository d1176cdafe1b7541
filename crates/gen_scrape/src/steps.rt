// Relabelling steps that an object writes, as those of a job.
ghost use Rattle.std.specs.Prelude.{◌≡◌, ◌++◌, ◌∷◌, [], true, IfOk, IfSome, OnOk};
ghost use Rattle.std.specs.Option.{option_copied};
ghost use Rattle.op_base.specs.Names.{is_label_name};
ghost use Rattle.op_relabel.specs.Checks.{AllPass, Passes};
ghost use Rattle.gen_scrape.specs.ProbeJobs as spec;

use op_base::{List, NoMemory, Text};
use op_relabel::{CheckedSteps, Step, StepFault};
use std::alloc::Global;

/// Adds the steps that an object writes, and then, where it is enforced, the step that gives the enforced label the
/// object's namespace.
pub(crate) fn push_own(
    alloc: Global,
    steps: &mut CheckedSteps,
    own: &[Step],
    enforced: Option<&str>,
    namespace: &str,
) -> Result<(), NoMemory>
    requires label { IfSome (option_copied enforced) (λ label. is_label_name label ≡ true) }
    requires steps { AllPass own.now }
    ensures { OnOk result (steps.new ≡ steps.old ++ own.now ++ spec.enforced_steps (option_copied enforced.entry) namespace.now) }
{
    push_steps(alloc, steps, own)?;
    push_enforced(alloc, steps, enforced, namespace)
}

fn push_steps(alloc: Global, steps: &mut CheckedSteps, more: &[Step]) -> Result<(), NoMemory>
    requires { AllPass more.now }
    ensures { OnOk result (steps.new ≡ steps.old ++ more.now) }
{
    for step in more {
        push_step(alloc, steps, step)?;
    }
    Ok(())
}

fn push_step(alloc: Global, steps: &mut CheckedSteps, step: &Step) -> Result<(), NoMemory>
    requires { Passes step.now }
    ensures { OnOk result (steps.new ≡ steps.old ++ step.now ∷ []) }
{
    match steps.push(alloc, copy_of(alloc, step)?) {
        Ok(()) => Ok(()),
        Err(StepFault::NoMemory) => Err(NoMemory),
        Err(_) => unreachable!(),
    }
}

fn copy_of(alloc: Global, step: &Step) -> Result<Step, NoMemory>
    ensures { IfOk result (λ copy. copy ≡ step.now) }
{
    Ok(Step {
        action: step.action,
        source: copy_texts(alloc, step.source.as_slice())?,
        separator: step.separator.clone()?,
        pattern: step.pattern.clone()?,
        replacement: step.replacement.clone()?,
        target: step.target.clone()?,
        modulus: step.modulus,
    })
}

/// Equal texts.
pub(crate) fn copy_texts(alloc: Global, texts: &[Text]) -> Result<List<Text>, NoMemory>
    ensures { IfOk result (λ copies. copies ≡ texts.now) }
{
    let mut copies = List::new(alloc);
    for text in texts {
        copies.push(text.clone()?)?;
    }
    Ok(copies)
}

fn push_enforced(
    alloc: Global,
    steps: &mut CheckedSteps,
    enforced: Option<&str>,
    namespace: &str,
) -> Result<(), NoMemory>
    requires { IfSome (option_copied enforced) (λ label. is_label_name label ≡ true) }
    ensures { OnOk result (steps.new ≡ steps.old ++ spec.enforced_steps (option_copied enforced.entry) namespace.now) }
{
    match enforced {
        Some(label) => steps.put_value(alloc, label, namespace),
        None => Ok(()),
    }
}
