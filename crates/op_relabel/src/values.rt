ghost use Rattle.std.specs.Prelude.{◌≡◌, ◌++◌, IfOk, OnOk};
ghost use Rattle.std.specs.List.{flat_map};
ghost use Rattle.op_relabel.specs.Actions as spec;

use crate::step::Step;
use op_base::{Labels, NoMemory, Text};
use std::alloc::Global;

/// The text of a step: the values of its source labels with the separator between two.
pub(crate) fn step_text(alloc: Global, step: &Step, labels: &Labels) -> Result<Text, NoMemory>
    ensures { IfOk result (λ text. text ≡ spec.step_text step.now labels.now) }
{
    let mut text = Text::new(alloc);
    match step.source.as_slice() {
        [] => Ok(text),
        [first, rest @ ..] => {
            text.push_str(labels.value(first.as_str()))?;
            push_values(&mut text, step.separator.as_str(), labels, rest)?;
            Ok(text)
        }
    }
}

fn push_values(
    text: &mut Text,
    separator: &str,
    labels: &Labels,
    names: &[Text],
) -> Result<(), NoMemory>
    ensures { OnOk result (text.new ≡ text.old ++ flat_map (spec.next_value separator.now labels.now) names.now) }
{
    for name in names {
        push_value(text, separator, labels, name.as_str())?;
    }
    Ok(())
}

fn push_value(text: &mut Text, separator: &str, labels: &Labels, name: &str) -> Result<(), NoMemory>
    ensures { OnOk result (text.new ≡ text.old ++ spec.next_value separator.now labels.now name.now) }
{
    text.push_str(separator)?;
    text.push_str(labels.value(name))
}
