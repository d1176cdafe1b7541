ghost use Rattle.std.specs.Prelude.{◌≡◌, IfOk};
ghost use Rattle.op_relabel.specs.Steps as spec;

use op_base::{List, NoMemory, Text};
use std::alloc::Global;

/// What a step does, under the names of the Prometheus documentation.
#[derive(Clone, Copy, Debug, PartialEq, Eq)]
pub enum Action {
    Replace,
    Keep,
    Drop,
    KeepEqual,
    DropEqual,
    HashMod,
    LabelMap,
    LabelDrop,
    LabelKeep,
    Lowercase,
    Uppercase,
}

/// A relabelling step of Prometheus. Its text is the values of its source labels with the separator
/// between two.
#[derive(Debug, PartialEq, Eq, Drop)]
pub struct Step {
    pub action: Action,
    pub source: List<Text>,
    pub separator: Text,
    pub pattern: Text,
    pub replacement: Text,
    pub target: Text,
    pub modulus: u64,
}

impl Step {
    /// The step that gives the value of the label `source` to the label `target`.
    pub fn copy_label(alloc: Global, source: &str, target: &str) -> Result<Step, NoMemory>
        ensures { IfOk result (λ step. step ≡ spec.copy_step source.now target.now) }
    {
        let mut sources = List::new(alloc);
        sources.push(Text::from_str(alloc, source)?)?;
        replacing(alloc, sources, "$1", target)
    }

    /// The step that gives a value to the label `target`. In the value, `$` begins a reference, and
    /// `$$` stands for `$`.
    pub fn put_value(alloc: Global, target: &str, value: &str) -> Result<Step, NoMemory>
        ensures { IfOk result (λ step. step ≡ spec.put_step target.now value.now) }
    {
        replacing(alloc, List::new(alloc), value, target)
    }
}

fn replacing(
    alloc: Global,
    source: List<Text>,
    replacement: &str,
    target: &str,
) -> Result<Step, NoMemory>
    ensures { IfOk result (λ step. step ≡ spec.replacing source replacement.now target.now) }
{
    Ok(Step {
        action: Action::Replace,
        source,
        separator: Text::from_str(alloc, ";")?,
        pattern: Text::from_str(alloc, "(.*)")?,
        replacement: Text::from_str(alloc, replacement)?,
        target: Text::from_str(alloc, target)?,
        modulus: 0,
    })
}
