// `label_replace` and `label_join`, which change one label of each element.
ghost use Rattle.std.specs.Prelude.{◌≡◌, ◌∷◌, [], ◌++◌, map, None, IfOk, OnOk, MatchOption};
ghost use Rattle.op_base.specs.Matchers.{label_value};
ghost use Rattle.op_base.specs.Patterns.{meaning_of};
ghost use Rattle.ql_call.specs.LabelCalls as spec;
ghost use Rattle.ql_call.specs.CallSteps as steps;
ghost use Rattle.ql_call.specs.Operands.{text_of as text_in};

use crate::changed::Changed;
use crate::clashes::gathered;
use crate::labels::with_label;
use crate::operand::{Operand, text_of};
use crate::operators::changed_to;
use crate::outcome::Outcome;
use op_base::{Labels, List, NoMemory, Pattern, PatternFault, Text};
use std::alloc::Global;

/// Where the pattern matches the source's value, the target has what the replacement expands to.
pub(crate) fn label_replace(
    alloc: Global,
    target: &str,
    replacement: &str,
    source: &str,
    pattern: &str,
    elements: &[(Labels, i64)],
) -> Result<Outcome, NoMemory>
    ensures { IfOk result (λ outcome. outcome
        ≡ spec.label_replace target.now replacement.now source.now pattern.now elements.now) }
{
    match pattern_of(alloc, pattern)? {
        Some(pattern) => gathered(
            alloc,
            all_replaced(alloc, target, replacement, source, &pattern, elements)?,
        ),
        None => gathered(alloc, all_unchanged(alloc, elements)?),
    }
}

// A text that is no pattern matches nothing.
fn pattern_of(alloc: Global, text: &str) -> Result<Option<Pattern>, NoMemory>
    ensures { IfOk result (λ pattern. MatchOption pattern (meaning_of text.now ≡ None) (λ p. p ≡ text.now)) }
{
    match Pattern::read(alloc, text) {
        Ok(pattern) => Ok(Some(pattern)),
        Err(PatternFault::BadPattern) => Ok(None),
        Err(PatternFault::NoMemory) => Err(NoMemory),
    }
}

fn all_unchanged(alloc: Global, elements: &[(Labels, i64)]) -> Result<List<Changed>, NoMemory>
    ensures { IfOk result (λ changed. changed ≡ map steps.unchanged elements.now) }
{
    let mut changed = List::new(alloc);
    for element in elements {
        changed.push(unchanged(element)?)?;
    }
    Ok(changed)
}

fn unchanged(element: &(Labels, i64)) -> Result<Changed, NoMemory>
    ensures { IfOk result (λ changed. changed ≡ steps.unchanged element.now) }
{
    changed_to(&element.0, element.0.copy()?, &element.1)
}

fn all_replaced(
    alloc: Global,
    target: &str,
    replacement: &str,
    source: &str,
    pattern: &Pattern,
    elements: &[(Labels, i64)],
) -> Result<List<Changed>, NoMemory>
    ensures { IfOk result (λ changed. changed
        ≡ map (spec.replaced target.now replacement.now source.now pattern.now) elements.now) }
{
    let mut changed = List::new(alloc);
    for element in elements {
        push_replaced(&mut changed, target, replacement, source, pattern, element)?;
    }
    Ok(changed)
}

fn push_replaced(
    changed: &mut List<Changed>,
    target: &str,
    replacement: &str,
    source: &str,
    pattern: &Pattern,
    element: &(Labels, i64),
) -> Result<(), NoMemory>
    ensures { OnOk result (changed.new ≡ changed.old
        ++ spec.replaced target.now replacement.now source.now pattern.now element.now ∷ []) }
{
    let value = pattern.expand(element.0.value(source), replacement)?;
    let to = replaced(&element.0, target, value)?;
    changed.push(changed_to(&element.0, to, &element.1)?)
}

// The labels with the value at the target, where there is a value; an empty one removes the target.
fn replaced(labels: &Labels, target: &str, value: Option<Text>) -> Result<Labels, NoMemory>
    ensures { IfOk result (λ to. to ≡ spec.replaced_by target.now labels.now value) }
{
    match value {
        Some(text) => with_label(labels, target, text.as_str()),
        None => labels.copy(),
    }
}

/// The target has the values of the sources, with the separator between them.
pub(crate) fn label_join(
    alloc: Global,
    target: &str,
    separator: &str,
    sources: &[Operand],
    elements: &[(Labels, i64)],
) -> Result<Outcome, NoMemory>
    ensures { IfOk result (λ outcome. outcome
        ≡ spec.label_join target.now separator.now (map text_in sources.now) elements.now) }
{
    gathered(
        alloc,
        all_joined(alloc, target, separator, sources, elements)?,
    )
}

fn all_joined(
    alloc: Global,
    target: &str,
    separator: &str,
    sources: &[Operand],
    elements: &[(Labels, i64)],
) -> Result<List<Changed>, NoMemory>
    ensures { IfOk result (λ changed. changed
        ≡ map (spec.joined_to target.now separator.now (map text_in sources.now)) elements.now) }
{
    let mut changed = List::new(alloc);
    for element in elements {
        push_joined(alloc, &mut changed, target, separator, sources, element)?;
    }
    Ok(changed)
}

fn push_joined(
    alloc: Global,
    changed: &mut List<Changed>,
    target: &str,
    separator: &str,
    sources: &[Operand],
    element: &(Labels, i64),
) -> Result<(), NoMemory>
    ensures { OnOk result (changed.new ≡ changed.old
        ++ spec.joined_to target.now separator.now (map text_in sources.now) element.now ∷ []) }
{
    let value = joined(alloc, separator, sources, &element.0)?;
    let to = with_label(&element.0, target, value.as_str())?;
    changed.push(changed_to(&element.0, to, &element.1)?)
}

fn joined(
    alloc: Global,
    separator: &str,
    sources: &[Operand],
    labels: &Labels,
) -> Result<Text, NoMemory>
    ensures { IfOk result (λ text. text
        ≡ spec.joined separator.now (map (label_value labels.now) (map text_in sources.now))) }
{
    match sources {
        [] => Ok(Text::new(alloc)),
        [first, others @ ..] => {
            let mut text = Text::from_str(alloc, labels.value(text_of(first)))?;
            push_each(&mut text, separator, others, labels)?;
            Ok(text)
        }
    }
}

fn push_each(
    text: &mut Text,
    separator: &str,
    sources: &[Operand],
    labels: &Labels,
) -> Result<(), NoMemory>
    ensures { OnOk result (text.new ≡ text.old
        ++ steps.each_behind separator.now (map (label_value labels.now) (map text_in sources.now))) }
{
    for source in sources {
        push_behind(text, separator, labels.value(text_of(source)))?;
    }
    Ok(())
}

fn push_behind(text: &mut Text, separator: &str, value: &str) -> Result<(), NoMemory>
    ensures { OnOk result (text.new ≡ text.old ++ separator.now ++ value.now) }
{
    text.push_str(separator)?;
    text.push_str(value)
}
