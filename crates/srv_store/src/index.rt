// The index of a store: for each label the numbers of the label sets that have it.
ghost use Rattle.std.specs.Prelude.{◌≡◌, ℕ, [], IfOk, OnOk, OnErr};
ghost use Rattle.op_base.specs.Labels.{labels_cmp, labels_with};
ghost use Rattle.op_base.specs.Maps.{with_member};
ghost use Rattle.srv_store.specs.Indexes as spec;

use crate::map::LabelMap;
use op_base::{Labels, List, NoMemory};
use std::alloc::Global;

/// Lists the number at each label of the label set. An error leaves it listed at none.
pub(crate) fn list_labels(
    alloc: Global,
    index: &mut LabelMap<List<usize>>,
    labels: &Labels,
    number: usize,
) -> Result<(), NoMemory>
    ensures ok { OnOk result (spec.ListsLabels index.old index.new labels.now number) }
    ensures err { OnErr result (spec.ListsSame index.old index.new) }
{
    let singles = single_labels(alloc, labels)?;
    let _rising = labels.len();
    list_each(alloc, index, singles.as_slice(), number)
}

// The labels, each as a label set of its own.
fn single_labels(alloc: Global, labels: &Labels) -> Result<List<Labels>, NoMemory>
    ensures { IfOk result (λ singles. singles ≡ spec.single_labels labels.now) }
{
    let mut singles = List::new(alloc);
    for place in 0..labels.len() {
        singles.push(label_of(alloc, labels.name_at(place), labels.value_at(place))?)?;
    }
    Ok(singles)
}

/// The label as a label set of its own.
pub(crate) fn label_of(alloc: Global, name: &str, value: &str) -> Result<Labels, NoMemory>
    ensures { IfOk result (λ label. label ≡ labels_with [] name.now value.now) }
{
    let mut label = Labels::new(alloc);
    label.set(name, value)?;
    Ok(label)
}

fn list_each(
    alloc: Global,
    index: &mut LabelMap<List<usize>>,
    labels: &[Labels],
    number: usize,
) -> Result<(), NoMemory>
    ensures ok { OnOk result (spec.ListsAt index.old index.new labels.now number) }
    ensures err { OnErr result (spec.ListsSame index.old index.new) }
{
    for place in 0..labels.len() {
        match list_one(alloc, index, &labels[place], number) {
            Ok(()) => (),
            Err(refused) => {
                unlist(index, &labels[..place]);
                return Err(refused);
            }
        }
    }
    Ok(())
}

fn list_one(
    alloc: Global,
    index: &mut LabelMap<List<usize>>,
    label: &Labels,
    number: usize,
) -> Result<(), NoMemory>
    ensures ok { OnOk result (index.new ≡ with_member labels_cmp index.old label.now number) }
    ensures err { OnErr result (index.new ≡ index.old) }
{
    index.add(alloc, label.copy()?, number)
}

// Takes the number back that was listed last at each of the labels.
fn unlist(index: &mut LabelMap<List<usize>>, labels: &[Labels])
    ensures { (listed : spec.Index) (n : ℕ) → spec.ListsAt listed index.old labels.now n
        → spec.ListsSame listed index.new }
{
    for label in labels {
        let _taken = index.pop(label);
    }
}
