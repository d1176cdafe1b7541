ghost use Rattle.std.specs.Prelude.{◌≡◌, not, IfOk};
ghost use Rattle.op_base.specs.Labels.{labels_with};
ghost use Rattle.op_relabel.specs.Actions as spec;
ghost use Rattle.op_relabel.specs.Relabelled.{after_step};

use crate::hash::hashed;
use crate::names::{mapped, with_names, with_other_names};
use crate::prepared::PreparedStep;
use crate::step::Action;
use crate::values::step_text;
use op_base::{Labels, NoMemory, Text};
use std::alloc::Global;

/// What a step leaves of the labels, or none where it drops them.
pub(crate) fn apply(
    alloc: Global,
    step: &PreparedStep,
    labels: Labels,
) -> Result<Option<Labels>, NoMemory>
    ensures { IfOk result (λ left. left ≡ after_step step.now labels) }
{
    match step.step().action {
        Action::Replace => Ok(Some(replaced(alloc, step, labels)?)),
        Action::Keep => Ok(kept_if(has_match(alloc, step, &labels)?, labels)),
        Action::Drop => Ok(kept_if(!has_match(alloc, step, &labels)?, labels)),
        Action::KeepEqual => Ok(kept_if(is_equal(alloc, step, &labels)?, labels)),
        Action::DropEqual => Ok(kept_if(!is_equal(alloc, step, &labels)?, labels)),
        Action::HashMod => Ok(Some(hashed(alloc, step, labels)?)),
        Action::LabelMap => Ok(Some(mapped(step, &labels)?)),
        Action::LabelDrop => Ok(Some(with_other_names(alloc, step, &labels)?)),
        Action::LabelKeep => Ok(Some(with_names(alloc, step, &labels)?)),
        Action::Lowercase => Ok(Some(lowered(alloc, step, labels)?)),
        Action::Uppercase => Ok(Some(raised(alloc, step, labels)?)),
    }
}

fn kept_if(is_kept: bool, labels: Labels) -> Option<Labels>
    ensures { result ≡ spec.kept_if is_kept labels }
{
    if is_kept { Some(labels) } else { None }
}

fn has_match(alloc: Global, step: &PreparedStep, labels: &Labels) -> Result<bool, NoMemory>
    ensures { IfOk result (λ found. found ≡ spec.has_match step.now labels.now) }
{
    let text = step_text(alloc, step.step(), labels)?;
    step.matches(text.as_str())
}

fn is_equal(alloc: Global, step: &PreparedStep, labels: &Labels) -> Result<bool, NoMemory>
    ensures { IfOk result (λ found. found ≡ spec.is_equal step.now labels.now) }
{
    let text = step_text(alloc, step.step(), labels)?;
    let value = labels.value(step.step().target.as_str());
    Ok(text.as_bytes() == value.as_bytes())
}

fn replaced(alloc: Global, step: &PreparedStep, labels: Labels) -> Result<Labels, NoMemory>
    ensures { IfOk result (λ left. left ≡ spec.replaced step.now labels) }
{
    let text = step_text(alloc, step.step(), &labels)?;
    match step.expand(text.as_str())? {
        Some(value) => with_label(labels, step.step().target.as_str(), value.as_str()),
        None => Ok(labels),
    }
}

fn lowered(alloc: Global, step: &PreparedStep, labels: Labels) -> Result<Labels, NoMemory>
    ensures { IfOk result (λ left. left ≡ spec.lowered step.now labels) }
{
    let text = step_text(alloc, step.step(), &labels)?;
    let value = Text::from_string(text.as_str().to_ascii_lowercase(alloc)?);
    with_label(labels, step.step().target.as_str(), value.as_str())
}

fn raised(alloc: Global, step: &PreparedStep, labels: Labels) -> Result<Labels, NoMemory>
    ensures { IfOk result (λ left. left ≡ spec.raised step.now labels) }
{
    let text = step_text(alloc, step.step(), &labels)?;
    let value = Text::from_string(text.as_str().to_ascii_uppercase(alloc)?);
    with_label(labels, step.step().target.as_str(), value.as_str())
}

/// The labels with the value at the target.
pub(crate) fn with_label(labels: Labels, target: &str, value: &str) -> Result<Labels, NoMemory>
    ensures { IfOk result (λ left. left ≡ labels_with labels target.now value.now) }
{
    let mut changed = labels;
    changed.set(target, value)?;
    Ok(changed)
}
