// The labels of elements.
ghost use Rattle.std.specs.Prelude.{◌≡◌, fold, drop, IfOk, OnOk};
ghost use Rattle.op_base.specs.Labels.{labels_with};
ghost use Rattle.op_base.specs.Matchers.{label_value};
ghost use Rattle.ql_call.specs.Elements as spec;

use op_base::{Labels, METRIC_NAME, NoMemory, Text};
use std::alloc::Global;

/// The labels without the name.
pub(crate) fn without_name(labels: &Labels) -> Result<Labels, NoMemory>
    ensures { IfOk result (λ kept. kept ≡ spec.without_name labels.now) }
{
    let mut kept = labels.copy()?;
    kept.remove(METRIC_NAME);
    Ok(kept)
}

/// The labels of these names alone.
pub(crate) fn only(alloc: Global, names: &[Text], labels: &Labels) -> Result<Labels, NoMemory>
    ensures { IfOk result (λ kept. kept ≡ spec.only names.now labels.now) }
{
    let mut kept = Labels::new(alloc);
    for name in names {
        include(&mut kept, name.as_str(), labels)?;
    }
    Ok(kept)
}

/// Puts the label of that name from others among the labels, or removes it where they lack it.
pub(crate) fn include(labels: &mut Labels, name: &str, others: &Labels) -> Result<(), NoMemory>
    ensures { OnOk result (labels.new
        ≡ labels_with labels.old name.now (label_value others.now name.now)) }
{
    labels.set(name, others.value(name))
}

/// The labels of all other names.
pub(crate) fn without(names: &[Text], labels: &Labels) -> Result<Labels, NoMemory>
    ensures { IfOk result (λ kept. kept ≡ spec.without names.now labels.now) }
{
    let mut kept = labels.copy()?;
    for name in names {
        kept.remove(name.as_str());
    }
    Ok(kept)
}

/// The labels with this value at the name. An empty value removes the name.
pub(crate) fn with_label(labels: &Labels, name: &str, value: &str) -> Result<Labels, NoMemory>
    ensures { IfOk result (λ to. to ≡ labels_with labels.now name.now value.now) }
{
    let mut to = labels.copy()?;
    to.set(name, value)?;
    Ok(to)
}
