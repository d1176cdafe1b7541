ghost use Rattle.std.specs.Prelude.{◌≡◌, IfOk};
ghost use Rattle.srv_store.specs.LabelMaps.{labels_in};
ghost use Rattle.srv_scrape.specs.Ticks as spec;

use op_base::{Labels, List, Moment, NoMemory};
use srv_store::{Entry, LabelMap, push_stale};
use std::alloc::Global;

/// The entries of all scrapes of a tick with the staleness markers behind them: one for each of the
/// label sets of the tick before that isn't given now. Beside them the label sets that are given
/// now, each once, in label order. It takes n log n comparisons of label sets.
pub fn tick_entries(
    alloc: Global,
    t: Moment,
    before: &List<Labels>,
    entries: List<Entry>,
) -> Result<(List<Entry>, List<Labels>), NoMemory>
    ensures entries { IfOk result (λ tick. tick.0 ≡ spec.tick_entries t before.now entries) }
    ensures given { IfOk result (λ tick. tick.1 ≡ spec.label_sets entries) }
{
    let given = by_labels(alloc, entries.as_slice())?;
    let mut entries = entries;
    push_stale(&mut entries, t, before.as_slice(), &given)?;
    let given = label_sets(alloc, given)?;
    Ok((entries, given))
}

fn by_labels(alloc: Global, entries: &[Entry]) -> Result<LabelMap<Option<i64>>, NoMemory>
    ensures { IfOk result (λ placed. placed ≡ spec.by_labels entries.now) }
{
    let mut placed = LabelMap::new(alloc);
    for entry in entries {
        placed.insert(entry.labels.copy()?, entry.value)?;
    }
    Ok(placed)
}

fn label_sets(alloc: Global, given: LabelMap<Option<i64>>) -> Result<List<Labels>, NoMemory>
    ensures { IfOk result (λ sets. sets ≡ labels_in given) }
{
    let mut sets = List::new(alloc);
    for (labels, _value) in given.into_entries(alloc)?.into_vec() {
        sets.push(labels)?;
    }
    Ok(sets)
}
