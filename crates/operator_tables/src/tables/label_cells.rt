ghost use Rattle.std.specs.Prelude.{◌<◌, length};

use crate::trouble::Trouble;
use op_base::{Labels, METRIC_NAME, NoMemory, Text};
use std::alloc::Global;

// The label that holds the name of the metric.
/// The label set that cells `NAME=VALUE` spell.
pub fn labels_of(alloc: Global, cells: &[Text]) -> Result<Labels, Trouble> {
    let mut labels = Labels::new(alloc);
    for cell in cells {
        let Some((name, value)) = cell.as_str().split_once('=') else {
            return Err(Trouble::Unreadable("a label is a name, = and a value"));
        };
        labels.set(name, value)?;
    }
    Ok(labels)
}

/// The name of the metric, and the other labels in braces.
pub fn push_labels(text: &mut Text, labels: &Labels) -> Result<(), NoMemory> {
    if labels.len() == 0 {
        return text.push_str("{}");
    }
    if let Some(metric) = labels.get(METRIC_NAME) {
        text.push_str(metric)?;
    }
    let is_open = push_others(text, labels)?;
    text.push_str(if is_open { "}" } else { "" })
}

// Pushes all labels but the name of the metric, and says whether there was one.
fn push_others(text: &mut Text, labels: &Labels) -> Result<bool, NoMemory> {
    let mut is_open = false;
    for index in 0..labels.len() {
        is_open = push_label(text, labels, index, is_open)? || is_open;
    }
    Ok(is_open)
}

fn push_label(
    text: &mut Text,
    labels: &Labels,
    index: usize,
    is_open: bool,
) -> Result<bool, NoMemory>
    requires { index < length labels.now }
{
    if labels.name_at(index) == METRIC_NAME {
        return Ok(false);
    }
    text.push_str(if is_open { "," } else { "{" })?;
    text.push_str(labels.name_at(index))?;
    text.push_str("=")?;
    text.push_str(labels.value_at(index))?;
    Ok(true)
}
