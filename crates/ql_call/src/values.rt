// The functions that change each element's value, and drop its name.
ghost use Rattle.std.specs.Prelude.{◌≡◌, ◌∷◌, [], ◌++◌, map, IfOk, OnOk};
ghost use Rattle.ql_call.specs.Calls as spec;
ghost use Rattle.ql_call.specs.CallSteps as steps;
ghost use Rattle.ql_call.specs.Elements.{without_name as without_name_of};
ghost use Rattle.ql_call.specs.Operators.{changed_to};

use crate::changed::Changed;
use crate::clashes::gathered;
use crate::labels::without_name;
use crate::numbers::clamped;
use crate::operators::changed_to;
use crate::outcome::Outcome;
use op_base::{Labels, List, NoMemory};
use std::alloc::Global;

/// What becomes of a value.
#[derive(Clone, Copy)]
pub(crate) enum Change {
    /// Its distance from 0.
    Size,
    /// -1, 0 or 1.
    Sign,
    AtLeast(i64),
    AtMost(i64),
    Between(i64, i64),
    /// This number, whatever the value was.
    Exactly(i64),
}

/// The elements with their values changed and without their names.
pub(crate) fn each_value(
    alloc: Global,
    change: &Change,
    elements: &[(Labels, i64)],
) -> Result<Outcome, NoMemory>
    ensures { IfOk result (λ outcome. outcome ≡ spec.each_value (steps.change_of change.now) elements.now) }
{
    gathered(alloc, all_changed(alloc, change, elements)?)
}

fn all_changed(
    alloc: Global,
    change: &Change,
    elements: &[(Labels, i64)],
) -> Result<List<Changed>, NoMemory>
    ensures { IfOk result (λ changed. changed ≡ map (spec.unnamed (steps.change_of change.now)) elements.now) }
{
    let mut changed = List::new(alloc);
    for element in elements {
        push_changed(&mut changed, change, element)?;
    }
    Ok(changed)
}

fn push_changed(
    changed: &mut List<Changed>,
    change: &Change,
    element: &(Labels, i64),
) -> Result<(), NoMemory>
    ensures { OnOk result (changed.new ≡ changed.old ++ spec.unnamed (steps.change_of change.now) element.now ∷ []) }
{
    let value = value_after(change, &element.1);
    changed.push(unnamed(&element.0, &value)?)
}

fn value_after(change: &Change, value: &i64) -> i64
    ensures { result ≡ steps.change_of change.now value.now }
{
    match change {
        Change::Size => size_of(value),
        Change::Sign => value.signum(),
        Change::AtLeast(low) => (*low).max(*value),
        Change::AtMost(high) => (*high).min(*value),
        Change::Between(low, high) => (*low).max((*high).min(*value)),
        Change::Exactly(number) => *number,
    }
}

// The least number has no opposite of 64 bits, so its size is the greatest one.
fn size_of(value: &i64) -> i64
    ensures { result ≡ spec.size_of value.now }
{
    clamped(&i128::from(value.unsigned_abs()))
}

/// An element with this value and without its name.
pub(crate) fn unnamed(labels: &Labels, value: &i64) -> Result<Changed, NoMemory>
    ensures { IfOk result (λ changed. changed ≡ changed_to labels.now (without_name_of labels.now) value.now) }
{
    changed_to(labels, without_name(labels)?, value)
}
