ghost use Rattle.std.specs.Prelude.{◌≡◌, IfOk};
ghost use Rattle.op_base.specs.Maps.{grouped, text_cmp};
ghost use Rattle.op_base.specs.Matchers.{label_value};
ghost use Rattle.srv_run.specs.Sharing as spec;

use op_base::{Labels, List, NAMESPACE_LABEL, NoMemory, OrderedMap, Text};
use srv_rule::FailedRule;
use srv_store::Entry;
use std::alloc::Global;

/// Things by a name that each of them has, those of one name in their order.
pub type Shares<T> = OrderedMap<Text, List<T>>;

/// The entries by the namespaces that their labels name.
pub fn by_home(alloc: Global, entries: List<Entry>) -> Result<Shares<Entry>, NoMemory>
    ensures { IfOk result (λ shares. shares ≡ grouped text_cmp spec.home_of entries) }
{
    let mut shares = OrderedMap::new(alloc);
    for entry in entries.into_vec() {
        shares.add(alloc, home_of(alloc, &entry.labels)?, entry)?;
    }
    Ok(shares)
}

/// The failed rules by their objects' namespaces.
pub fn by_namespace(alloc: Global, failed: List<FailedRule>) -> Result<Shares<FailedRule>, NoMemory>
    ensures { IfOk result (λ shares. shares ≡ grouped text_cmp spec.place_of failed) }
{
    let mut shares = OrderedMap::new(alloc);
    for rule in failed.into_vec() {
        shares.add(alloc, rule.namespace.clone()?, rule)?;
    }
    Ok(shares)
}

// The namespace that the labels name, or the empty text.
fn home_of(alloc: Global, labels: &Labels) -> Result<Text, NoMemory>
    ensures { IfOk result (λ home. home ≡ label_value labels.now NAMESPACE_LABEL.now) }
{
    Text::from_str(alloc, labels.value(NAMESPACE_LABEL))
}

/// An equal failed rule.
pub fn copy_of(rule: &FailedRule) -> Result<FailedRule, NoMemory>
    ensures { IfOk result (λ copy. copy ≡ rule.now) }
{
    Ok(FailedRule {
        namespace: rule.namespace.clone()?,
        name: rule.name.clone()?,
        group: rule.group.clone()?,
        index: rule.index,
    })
}
