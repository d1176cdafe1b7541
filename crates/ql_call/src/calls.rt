// The calls of functions. All but `last_over_time`, `label_replace` and `label_join` drop the name of
// what they are given.
ghost use Rattle.std.specs.Prelude.{◌≡◌, true, [], ◌∷◌, ◌++◌, drop, IfOk, OnOk};
ghost use Rattle.std.specs.Int.{int_max, int_min};
ghost use Rattle.std.specs.List.{flat_map};
ghost use Rattle.ql_call.specs.Calls as spec;
ghost use Rattle.ql_call.specs.Operators.{changed_to};
ghost use Rattle.ql_call.specs.Ordered.{is_ordered};
ghost use Rattle.ql_call.specs.declared.outcome.Outcome.TheVariants as outcome;

use crate::changed::Changed;
use crate::clashes::gathered;
use crate::function::{Function, RangeFunction};
use crate::label_calls::{label_join, label_replace};
use crate::naming::function_of;
use crate::operand::{Operand, elements_at, scalar_at, text_at};
use crate::operators::changed_to;
use crate::outcome::Outcome;
use crate::over_time::{SECOND, over};
use crate::values::{Change, each_value, unnamed};
use op_base::{Labels, List, Moment, NoMemory, Span};
use std::alloc::Global;

/// What a call of the function with that name comes to, at the moment of an evaluation. A name that no
/// function has gives an empty vector.
pub fn call(alloc: Global, name: &str, t: &Moment, args: &[Operand]) -> Result<Outcome, NoMemory>
    ensures value { IfOk result (λ o. o ≡ spec.call_of name.now t.now args.now) }
    ensures ordered { IfOk result (λ o. is_ordered o ≡ true) }
{
    match function_of(name) {
        Some(function) => called(alloc, function, t, args),
        None => Ok(Outcome::Vector(List::new(alloc))),
    }
}

fn called(
    alloc: Global,
    function: Function,
    t: &Moment,
    args: &[Operand],
) -> Result<Outcome, NoMemory>
    ensures { IfOk result (λ o. o ≡ spec.call function t.now args.now) }
{
    match function {
        Function::Abs => each_value(alloc, &Change::Size, elements_at(args, 0)),
        Function::Sgn => each_value(alloc, &Change::Sign, elements_at(args, 0)),
        Function::Absent | Function::AbsentOverTime => absent(alloc, args),
        Function::Over(function) => over_range(alloc, function, args),
        Function::Clamp => clamp(
            alloc,
            &scalar_at(args, 1),
            &scalar_at(args, 2),
            elements_at(args, 0),
        ),
        Function::ClampMin => clamp_min(alloc, &scalar_at(args, 1), elements_at(args, 0)),
        Function::ClampMax => clamp_max(alloc, &scalar_at(args, 1), elements_at(args, 0)),
        Function::LabelReplace => label_replace(
            alloc,
            text_at(args, 1),
            text_at(args, 2),
            text_at(args, 3),
            text_at(args, 4),
            elements_at(args, 0),
        ),
        Function::LabelJoin => label_join(
            alloc,
            text_at(args, 1),
            text_at(args, 2),
            sources_in(args),
            elements_at(args, 0),
        ),
        Function::Time => Ok(Outcome::Scalar(seconds_of(t))),
        Function::Timestamp => timestamp(alloc, t, args),
        Function::Vector => vector(alloc, &scalar_at(args, 0)),
    }
}

// 1 where there is nothing, with the labels of a selector.
fn absent(alloc: Global, args: &[Operand]) -> Result<Outcome, NoMemory>
    ensures { IfOk result (λ o. o ≡ spec.absent (spec.first_of args.now)) }
{
    match args.first() {
        Some(Operand::Selected(elements, _, labels)) => {
            one_where_empty(alloc, labels, elements.as_slice())
        }
        Some(Operand::Ranged(series, _, labels)) => {
            one_where_empty(alloc, labels, series.as_slice())
        }
        _ => one_where_empty(alloc, &Labels::new(alloc), elements_at(args, 0)),
    }
}

fn one_where_empty<X>(alloc: Global, labels: &Labels, things: &[X]) -> Result<Outcome, NoMemory>
    ensures { IfOk result (λ o. o ≡ spec.one_where_empty labels.now things.now) }
{
    match things {
        [] => only_element(alloc, labels.copy()?, &1),
        [_, ..] => Ok(Outcome::Vector(List::new(alloc))),
    }
}

// A function of a range, of each label set that has a sample in it.
fn over_range(alloc: Global, function: RangeFunction, args: &[Operand]) -> Result<Outcome, NoMemory>
    ensures { IfOk result (λ o. o ≡ spec.over_operand function (spec.first_of args.now)) }
{
    match args.first() {
        Some(Operand::Ranged(series, range, _)) => {
            let changed = all_over(alloc, function, *range, series.as_slice())?;
            gathered(alloc, changed)
        }
        _ => Ok(Outcome::Vector(List::new(alloc))),
    }
}

fn all_over(
    alloc: Global,
    function: RangeFunction,
    range: Span,
    series: &[(Labels, List<(Moment, i64)>)],
) -> Result<List<Changed>, NoMemory>
    ensures { IfOk result (λ changed. changed ≡ flat_map (spec.over_one function range) series.now) }
{
    let mut changed = List::new(alloc);
    for one in series {
        push_over(&mut changed, function, range, one)?;
    }
    Ok(changed)
}

// A label set with no number is left out.
fn push_over(
    changed: &mut List<Changed>,
    function: RangeFunction,
    range: Span,
    series: &(Labels, List<(Moment, i64)>),
) -> Result<(), NoMemory>
    ensures { OnOk result (changed.new ≡ changed.old ++ spec.over_one function range series.now) }
{
    if let Some(value) = over(function, series.1.as_slice(), range) {
        changed.push(over_changed(function, &series.0, &value)?)?;
    }
    Ok(())
}

// The name stays with `last_over_time` alone.
fn over_changed(function: RangeFunction, labels: &Labels, value: &i64) -> Result<Changed, NoMemory>
    ensures { IfOk result (λ changed. changed
        ≡ changed_to labels.now (spec.over_labels function labels.now) value.now) }
{
    match function {
        RangeFunction::Last => changed_to(labels, labels.copy()?, value),
        _ => unnamed(labels, value),
    }
}

// Values between two bounds; nothing where the lower one is above the upper one.
fn clamp(
    alloc: Global,
    low: &i64,
    high: &i64,
    elements: &[(Labels, i64)],
) -> Result<Outcome, NoMemory>
    ensures { IfOk result (λ o. o ≡ spec.clamp low.now high.now elements.now) }
{
    if *high < *low {
        return Ok(Outcome::Vector(List::new(alloc)));
    }
    each_value(alloc, &Change::Between(*low, *high), elements)
}

fn clamp_min(alloc: Global, low: &i64, elements: &[(Labels, i64)]) -> Result<Outcome, NoMemory>
    ensures { IfOk result (λ o. o ≡ spec.each_value (int_max low.now) elements.now) }
{
    each_value(alloc, &Change::AtLeast(*low), elements)
}

fn clamp_max(alloc: Global, high: &i64, elements: &[(Labels, i64)]) -> Result<Outcome, NoMemory>
    ensures { IfOk result (λ o. o ≡ spec.each_value (int_min high.now) elements.now) }
{
    each_value(alloc, &Change::AtMost(*high), elements)
}

// The sources of `label_join` are its arguments from the fourth on.
fn sources_in(args: &[Operand]) -> &[Operand]
    ensures { result.now ≡ drop 3 args.now }
{
    match args {
        [_, _, _, sources @ ..] => sources,
        _ => &[],
    }
}

// A selector gives the moments of its samples, all else the moment of the evaluation.
fn timestamp(alloc: Global, t: &Moment, args: &[Operand]) -> Result<Outcome, NoMemory>
    ensures { IfOk result (λ o. o ≡ spec.timestamp t.now (spec.first_of args.now)) }
{
    match args.first() {
        Some(Operand::Selected(elements, moments, _)) => {
            let changed = stamped(alloc, elements.as_slice(), moments.as_slice())?;
            gathered(alloc, changed)
        }
        _ => each_value(alloc, &Change::Exactly(seconds_of(t)), elements_at(args, 0)),
    }
}

fn stamped(
    alloc: Global,
    elements: &[(Labels, i64)],
    moments: &[Moment],
) -> Result<List<Changed>, NoMemory>
    ensures { IfOk result (λ changed. changed ≡ spec.stamped elements.now moments.now) }
{
    let mut changed = List::new(alloc);
    for (element, at) in elements.iter().zip(moments) {
        push_stamped(&mut changed, element, at)?;
    }
    Ok(changed)
}

fn push_stamped(
    changed: &mut List<Changed>,
    element: &(Labels, i64),
    at: &Moment,
) -> Result<(), NoMemory>
    ensures { OnOk result (changed.new ≡ changed.old ++ spec.stamped (element.now ∷ []) (at.now ∷ [])) }
{
    let value = seconds_of(at);
    changed.push(unnamed(&element.0, &value)?)
}

// A moment in whole seconds, cut towards zero.
fn seconds_of(t: &Moment) -> i64
    ensures { result ≡ spec.seconds_of t.now }
{
    t.0 / SECOND
}

// A scalar as the only element, which has no labels.
fn vector(alloc: Global, value: &i64) -> Result<Outcome, NoMemory>
    ensures { IfOk result (λ o. o ≡ outcome.Vector (([], value.now) ∷ [])) }
{
    only_element(alloc, Labels::new(alloc), value)
}

// A vector of one element.
fn only_element(alloc: Global, labels: Labels, value: &i64) -> Result<Outcome, NoMemory>
    ensures { IfOk result (λ o. o ≡ outcome.Vector ((labels, value.now) ∷ [])) }
{
    let mut vector = List::new(alloc);
    vector.push((labels, *value))?;
    Ok(Outcome::Vector(vector))
}
