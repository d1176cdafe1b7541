// Aggregates of the elements of a vector.
ghost use Rattle.std.specs.Prelude.{◌≡◌, true, Some, ◌++◌, ◌∷◌, [], map, IfOk, OnOk};
ghost use Rattle.std.specs.Fmt.{signed_decimal};
ghost use Rattle.op_base.specs.Maps.{with_member};
ghost use Rattle.op_base.specs.Labels.{labels_cmp};
ghost use Rattle.ql_call.specs.Aggregates as spec;
ghost use Rattle.ql_call.specs.Elements.{values_in};
ghost use Rattle.ql_call.specs.Ordered.{is_ordered};
ghost use Rattle.ql_call.specs.Ranked as ranks;
ghost use Rattle.ql_call.specs.declared.outcome.Outcome.TheVariants.{Vector};

use crate::labels::{only, with_label, without, without_name};
use crate::numbers::{average, clamped, count, greatest, least, total};
use crate::outcome::Outcome;
use crate::ranked::best_of;
use op_base::{Labels, List, NoMemory, Text};
use ql_tree::{AggregateOp, Grouping};
use srv_store::LabelMap;
use std::alloc::Global;

/// An aggregate of elements. The label is the parameter of `count_values`, the number that of `topk`
/// and `bottomk`.
pub fn aggregate(
    alloc: Global,
    op: AggregateOp,
    grouping: &Option<Grouping>,
    label: &str,
    k: &i64,
    elements: &[(Labels, i64)],
) -> Result<Outcome, NoMemory>
    ensures value { IfOk result (λ o. o ≡ spec.aggregate op grouping.now label.now k.now elements.now) }
    ensures ordered { IfOk result (λ o. is_ordered o ≡ true) }
{
    match op {
        AggregateOp::CountValues => counted_values(alloc, label, grouping, elements),
        AggregateOp::TopK => best(alloc, true, k, grouping, elements),
        AggregateOp::BottomK => best(alloc, false, k, grouping, elements),
        _ => aggregated_groups(alloc, op, groups_of(alloc, grouping, elements)?),
    }
}

fn best(
    alloc: Global,
    top: bool,
    k: &i64,
    grouping: &Option<Grouping>,
    elements: &[(Labels, i64)],
) -> Result<Outcome, NoMemory>
    ensures { IfOk result (λ o. o ≡ Vector (ranks.best_of top k.now (spec.groups_of grouping.now elements.now))) }
{
    let groups = groups_of(alloc, grouping, elements)?;
    Ok(Outcome::Vector(best_of(alloc, top, k, groups)?))
}

// The groups, each by its labels.
fn groups_of(
    alloc: Global,
    grouping: &Option<Grouping>,
    elements: &[(Labels, i64)],
) -> Result<LabelMap<List<(Labels, i64)>>, NoMemory>
    ensures { IfOk result (λ groups. groups ≡ spec.groups_of grouping.now elements.now) }
{
    let mut groups = LabelMap::new(alloc);
    for element in elements {
        add_element(alloc, &mut groups, grouping, element)?;
    }
    Ok(groups)
}

fn add_element(
    alloc: Global,
    groups: &mut LabelMap<List<(Labels, i64)>>,
    grouping: &Option<Grouping>,
    element: &(Labels, i64),
) -> Result<(), NoMemory>
    ensures { OnOk result (groups.new ≡ with_member labels_cmp groups.old (spec.group_key grouping.now element.now.0) element.now) }
{
    let key = group_key(alloc, grouping, &element.0)?;
    groups.add(alloc, key, (element.0.copy()?, element.1))
}

fn group_key(
    alloc: Global,
    grouping: &Option<Grouping>,
    labels: &Labels,
) -> Result<Labels, NoMemory>
    ensures { IfOk result (λ key. key ≡ spec.group_key grouping.now labels.now) }
{
    match grouping {
        Some(grouping) => group_by(alloc, grouping.by, grouping.labels.as_slice(), labels),
        None => group_by(alloc, true, &[], labels),
    }
}

fn group_by(alloc: Global, by: bool, names: &[Text], labels: &Labels) -> Result<Labels, NoMemory>
    ensures { IfOk result (λ key. key ≡ spec.group_by by names.now labels.now) }
{
    if by {
        only(alloc, names, labels)
    } else {
        without_name(&without(names, labels)?)
    }
}

// One element a group.
fn aggregated_groups(
    alloc: Global,
    op: AggregateOp,
    groups: LabelMap<List<(Labels, i64)>>,
) -> Result<Outcome, NoMemory>
    ensures { IfOk result (λ o. o ≡ spec.aggregated_groups op groups) }
{
    let mut elements = List::new(alloc);
    for (labels, group) in groups.into_entries(alloc)?.into_vec() {
        push_group(&mut elements, op, labels, group)?;
    }
    Ok(Outcome::Vector(elements))
}

fn push_group(
    elements: &mut List<(Labels, i64)>,
    op: AggregateOp,
    labels: Labels,
    group: List<(Labels, i64)>,
) -> Result<(), NoMemory>
    ensures { OnOk result (elements.new ≡ elements.old ++ spec.group_element op (labels, group) ∷ []) }
{
    let number = aggregated(op, group.as_slice());
    elements.push((labels, number))
}

// The number of a group.
fn aggregated(op: AggregateOp, group: &[(Labels, i64)]) -> i64
    ensures { result ≡ spec.aggregated op (values_in group.now) }
{
    match op {
        AggregateOp::Sum => clamped(&total(group)),
        AggregateOp::Min => least(group),
        AggregateOp::Max => greatest(group),
        AggregateOp::Avg => clamped(&average(group)),
        AggregateOp::Count | AggregateOp::CountValues => count(group),
        _ => 1,
    }
}

// How many elements of each group have each value.
fn counted_values(
    alloc: Global,
    label: &str,
    grouping: &Option<Grouping>,
    elements: &[(Labels, i64)],
) -> Result<Outcome, NoMemory>
    ensures { IfOk result (λ o. o ≡ spec.counted_values label.now grouping.now elements.now) }
{
    let grouping = Some(counting(alloc, label, grouping)?);
    let elements = with_decimals(alloc, label, elements)?;
    let groups = groups_of(alloc, &grouping, elements.as_slice())?;
    aggregated_groups(alloc, AggregateOp::CountValues, groups)
}

// The list of a `by` clause names that label too, also where there is no clause.
fn counting(alloc: Global, label: &str, grouping: &Option<Grouping>) -> Result<Grouping, NoMemory>
    ensures { IfOk result (λ g. g ≡ spec.counting label.now grouping.now) }
{
    match grouping {
        Some(grouping) => counting_by(alloc, grouping.by, grouping.labels.as_slice(), label),
        None => counting_by(alloc, true, &[], label),
    }
}

fn counting_by(alloc: Global, by: bool, names: &[Text], label: &str) -> Result<Grouping, NoMemory>
    ensures { IfOk result (λ g. g ≡ spec.counting_by by names.now label.now) }
{
    let mut labels = copied(alloc, names)?;
    if by {
        labels.push(Text::from_str(alloc, label)?)?;
    }
    Ok(Grouping { by, labels })
}

fn copied(alloc: Global, names: &[Text]) -> Result<List<Text>, NoMemory>
    ensures { IfOk result (λ copies. copies ≡ names.now) }
{
    let mut copies = List::new(alloc);
    for name in names {
        copies.push(copy_of(alloc, name)?)?;
    }
    Ok(copies)
}

fn copy_of(alloc: Global, name: &Text) -> Result<Text, NoMemory>
    ensures { IfOk result (λ copy. copy ≡ name.now) }
{
    Text::from_str(alloc, name.as_str())
}

// The elements, each with its value as a label.
fn with_decimals(
    alloc: Global,
    label: &str,
    elements: &[(Labels, i64)],
) -> Result<List<(Labels, i64)>, NoMemory>
    ensures { IfOk result (λ labelled. labelled ≡ map (spec.with_decimal label.now) elements.now) }
{
    let mut labelled = List::new(alloc);
    for element in elements {
        push_with_decimal(alloc, &mut labelled, label, element)?;
    }
    Ok(labelled)
}

fn push_with_decimal(
    alloc: Global,
    labelled: &mut List<(Labels, i64)>,
    label: &str,
    element: &(Labels, i64),
) -> Result<(), NoMemory>
    ensures { OnOk result (labelled.new ≡ labelled.old ++ spec.with_decimal label.now element.now ∷ []) }
{
    let labels = with_label(&element.0, label, decimal(alloc, &element.1)?.as_str())?;
    labelled.push((labels, element.1))
}

fn decimal(alloc: Global, number: &i64) -> Result<Text, NoMemory>
    ensures { IfOk result (λ text. text ≡ signed_decimal number.now) }
{
    let number = *number;
    Ok(Text::from_string(format!(in alloc; "{number}")?))
}
