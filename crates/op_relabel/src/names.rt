// The actions on labels by their names.
ghost use Rattle.std.specs.Prelude.{◌≡◌, ◌∷◌, [], filter, IfOk, OnOk};
ghost use Rattle.std.specs.List.{filter_map};
ghost use Rattle.op_base.specs.Labels.{labels_with_all};
ghost use Rattle.op_relabel.specs.Actions as spec;

use crate::prepared::PreparedStep;
use op_base::{Labels, NoMemory, Text, is_label_name};
use std::alloc::Global;

/// The labels, with the value of each whose name is mapped at the name that it is mapped to.
pub(crate) fn mapped(step: &PreparedStep, labels: &Labels) -> Result<Labels, NoMemory>
    ensures { IfOk result (λ left. left ≡ spec.mapped step.now labels.now) }
{
    let mut left = labels.copy()?;
    for place in 0..labels.len() {
        put_mapped(
            &mut left,
            step,
            labels.name_at(place),
            labels.value_at(place),
        )?;
    }
    Ok(left)
}

fn put_mapped(
    left: &mut Labels,
    step: &PreparedStep,
    name: &str,
    value: &str,
) -> Result<(), NoMemory>
    ensures { OnOk result (left.new
        ≡ labels_with_all left.old (filter_map (spec.mapped_label step.now) ((name.now, value.now) ∷ []))) }
{
    match mapped_name(step, name)? {
        Some(mapped) => left.set(mapped.as_str(), value),
        None => Ok(()),
    }
}

fn mapped_name(step: &PreparedStep, name: &str) -> Result<Option<Text>, NoMemory>
    ensures { IfOk result (λ mapped. mapped ≡ spec.mapped_name step.now name.now) }
{
    match step.expand(name)? {
        Some(mapped) => Ok(as_label_name(mapped)),
        None => Ok(None),
    }
}

fn as_label_name(text: Text) -> Option<Text>
    ensures { result ≡ spec.as_label_name text }
{
    if is_label_name(text.as_str()) {
        Some(text)
    } else {
        None
    }
}

/// The labels whose names match.
pub(crate) fn with_names(
    alloc: Global,
    step: &PreparedStep,
    labels: &Labels,
) -> Result<Labels, NoMemory>
    ensures { IfOk result (λ left. left ≡ filter (spec.is_named step.now) labels.now) }
{
    let mut left = Labels::new(alloc);
    for place in 0..labels.len() {
        put_if_named(
            &mut left,
            step,
            labels.name_at(place),
            labels.value_at(place),
        )?;
    }
    Ok(left)
}

fn put_if_named(
    left: &mut Labels,
    step: &PreparedStep,
    name: &str,
    value: &str,
) -> Result<(), NoMemory>
    ensures { OnOk result (left.new
        ≡ labels_with_all left.old (filter (spec.is_named step.now) ((name.now, value.now) ∷ []))) }
{
    if step.matches(name)? {
        return left.set(name, value);
    }
    Ok(())
}

/// The labels whose names don't match.
pub(crate) fn with_other_names(
    alloc: Global,
    step: &PreparedStep,
    labels: &Labels,
) -> Result<Labels, NoMemory>
    ensures { IfOk result (λ left. left ≡ filter (spec.is_named_else step.now) labels.now) }
{
    let mut left = Labels::new(alloc);
    for place in 0..labels.len() {
        put_if_named_else(
            &mut left,
            step,
            labels.name_at(place),
            labels.value_at(place),
        )?;
    }
    Ok(left)
}

fn put_if_named_else(
    left: &mut Labels,
    step: &PreparedStep,
    name: &str,
    value: &str,
) -> Result<(), NoMemory>
    ensures { OnOk result (left.new
        ≡ labels_with_all left.old (filter (spec.is_named_else step.now) ((name.now, value.now) ∷ []))) }
{
    if step.matches(name)? {
        return Ok(());
    }
    left.set(name, value)
}
