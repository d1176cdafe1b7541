// The keys by which the elements of two vectors are matched.
ghost use Rattle.std.specs.Prelude.{◌≡◌, map, IfOk, OnOk};
ghost use Rattle.std.specs.Option.{option_copied};
ghost use Rattle.op_base.specs.Labels.{labels_cmp};
ghost use Rattle.op_base.specs.Maps.{members_at};
ghost use Rattle.srv_store.specs.LabelMaps as maps;
ghost use Rattle.ql_call.specs.Matched as spec;
ghost use Rattle.ql_call.specs.Keyed as steps;

use crate::changed::Changed;
use crate::labels::{only, without};
use crate::operators::{changed_to, copy_of};
use op_base::{Labels, List, METRIC_NAME, NoMemory, Text};
use ql_tree::Matching;
use srv_store::LabelMap;
use std::alloc::Global;

/// The key of labels: those that `on` names, or all but those of `ignoring` and the name.
pub(crate) fn key_of(
    alloc: Global,
    matching: &Option<Matching>,
    labels: &Labels,
) -> Result<Labels, NoMemory>
    ensures { IfOk result (λ key. key ≡ spec.key_of matching.now labels.now) }
{
    match matching {
        Some(matching) => key_by(alloc, matching.on, matching.labels.as_slice(), labels),
        None => key_by(alloc, false, &[], labels),
    }
}

fn key_by(alloc: Global, on: bool, names: &[Text], labels: &Labels) -> Result<Labels, NoMemory>
    ensures { IfOk result (λ key. key ≡ spec.key_by on names.now labels.now) }
{
    if on {
        return only(alloc, names, labels);
    }
    let mut key = without(names, labels)?;
    key.remove(METRIC_NAME);
    Ok(key)
}

/// Elements by their keys, those of one key in their order.
pub(crate) fn ones_by_key(
    alloc: Global,
    matching: &Option<Matching>,
    ones: &[(Labels, i64)],
) -> Result<LabelMap<List<(Labels, i64)>>, NoMemory>
    ensures { IfOk result (λ by_key. by_key ≡ spec.ones_by_key matching.now ones.now) }
{
    let mut by_key = LabelMap::new(alloc);
    for one in ones {
        add_one(alloc, &mut by_key, matching, one)?;
    }
    Ok(by_key)
}

fn add_one(
    alloc: Global,
    by_key: &mut LabelMap<List<(Labels, i64)>>,
    matching: &Option<Matching>,
    one: &(Labels, i64),
) -> Result<(), NoMemory>
    ensures { OnOk result (by_key.new ≡ steps.with_one matching.now by_key.old one.now) }
{
    let key = key_of(alloc, matching, &one.0)?;
    by_key.add(alloc, key, copy_of(one)?)
}

/// Whether the key of the element is among the keys.
pub(crate) fn is_keyed(
    alloc: Global,
    matching: &Option<Matching>,
    by_key: &LabelMap<List<(Labels, i64)>>,
    element: &(Labels, i64),
) -> Result<bool, NoMemory>
    ensures { IfOk result (λ found. found ≡ steps.is_keyed matching.now by_key.now element.now) }
{
    let key = key_of(alloc, matching, &element.0)?;
    Ok(has_labels(by_key, &key))
}

fn has_labels(by_key: &LabelMap<List<(Labels, i64)>>, labels: &Labels) -> bool
    ensures { result ≡ maps.has_labels by_key.now labels.now }
{
    by_key.get(labels).is_some()
}

/// The only element that has the key of these labels, if there is just one.
pub(crate) fn partner_of<'a>(
    alloc: Global,
    matching: &Option<Matching>,
    by_key: &'a LabelMap<List<(Labels, i64)>>,
    labels: &Labels,
) -> Result<Option<&'a (Labels, i64)>, NoMemory>
    ensures { IfOk result (λ one. option_copied one
        ≡ steps.partner_of matching.now by_key.now labels.now) }
{
    let key = key_of(alloc, matching, labels)?;
    Ok(sole_at(by_key, &key))
}

fn sole_at<'a>(by_key: &'a LabelMap<List<(Labels, i64)>>, key: &Labels) -> Option<&'a (Labels, i64)>
    ensures { option_copied result ≡ spec.sole (members_at labels_cmp by_key.now key.now) }
{
    match by_key.members(key) {
        [element] => Some(element),
        _ => None,
    }
}

/// The elements with their keys as new labels.
pub(crate) fn keyed(
    alloc: Global,
    matching: &Option<Matching>,
    elements: &[(Labels, i64)],
) -> Result<List<Changed>, NoMemory>
    ensures { IfOk result (λ changed. changed ≡ map (spec.keyed matching.now) elements.now) }
{
    let mut changed = List::new(alloc);
    for element in elements {
        changed.push(with_key(alloc, matching, &element.0, &element.1)?)?;
    }
    Ok(changed)
}

/// The elements of results with their keys as new labels.
pub(crate) fn rekeyed(
    alloc: Global,
    matching: &Option<Matching>,
    results: &[Changed],
) -> Result<List<Changed>, NoMemory>
    ensures { IfOk result (λ changed. changed ≡ map (spec.rekeyed matching.now) results.now) }
{
    let mut changed = List::new(alloc);
    for element in results {
        changed.push(with_key(alloc, matching, &element.from, &element.value)?)?;
    }
    Ok(changed)
}

fn with_key(
    alloc: Global,
    matching: &Option<Matching>,
    labels: &Labels,
    value: &i64,
) -> Result<Changed, NoMemory>
    ensures { IfOk result (λ changed. changed ≡ spec.keyed matching.now (labels.now, value.now)) }
{
    changed_to(labels, key_of(alloc, matching, labels)?, value)
}
