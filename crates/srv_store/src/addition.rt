ghost use Rattle.std.specs.Prelude.{◌≡◌, ◌<◌, false, not, length, IfOk, OnOk, OnErr};
ghost use Rattle.std.specs.List.{list_any};
ghost use Rattle.srv_store.specs.Indexes.{IsIndex};
ghost use Rattle.srv_store.specs.Runs as spec;
ghost use Rattle.srv_store.specs.Stores.{same_labels};

use crate::index::list_labels;
use crate::map::LabelMap;
use crate::run::Run;
use indexmap::IndexSet;
use op_base::{Labels, List, Moment, NoMemory};
use std::alloc::Global;

/// What a store took: the number of the run that it went to, a moment, and a value, or none for a
/// staleness marker.
#[derive(Clone, Copy, Debug)]
pub(crate) struct Addition {
    pub number: usize,
    pub at: Moment,
    pub value: Option<i64>,
}

/// The number of the label set. A new label set gets the next number, and a run without readings; the
/// number is listed at its labels.
pub(crate) fn numbered(
    alloc: Global,
    keys: &mut IndexSet<Labels>,
    runs: &mut Vec<Run>,
    index: &mut LabelMap<List<usize>>,
    labels: &Labels,
) -> Result<usize, NoMemory>
    ensures ok { IfOk result (λ number. spec.IsNumbered
        keys.old.keys runs.old.items keys.new.keys runs.new.items labels.now number) }
    ensures index { IsIndex keys.old.keys index.old → IsIndex keys.new.keys index.new }
    ensures keys { OnErr result (keys.new.keys ≡ keys.old.keys) }
    ensures runs { OnErr result (runs.new.items ≡ runs.old.items) }
{
    let _distinct = keys.len();
    match keys.get_index_of(labels) {
        Some(number) => Ok(number),
        None => new_number(alloc, keys, runs, index, labels.copy()?),
    }
}

fn new_number(
    alloc: Global,
    keys: &mut IndexSet<Labels>,
    runs: &mut Vec<Run>,
    index: &mut LabelMap<List<usize>>,
    labels: Labels,
) -> Result<usize, NoMemory>
    requires { list_any (same_labels labels) keys.old.keys ≡ false }
    ensures ok { IfOk result (λ number. spec.IsNumbered
        keys.old.keys runs.old.items keys.new.keys runs.new.items labels number) }
    ensures index { IsIndex keys.old.keys index.old → IsIndex keys.new.keys index.new }
    ensures keys { OnErr result (keys.new.keys ≡ keys.old.keys) }
    ensures runs { OnErr result (runs.new.items ≡ runs.old.items) }
{
    runs.reserve(1)?;
    keys.reserve(1)?;
    list_labels(alloc, index, &labels, keys.len())?;
    let (number, _is_new) = keys.insert_full(labels).unwrap();
    runs.push(Run::new(alloc)).unwrap();
    Ok(number)
}

/// Adds the reading to its run and to the list of additions, where the run has none of its moment.
pub(crate) fn add_at(
    runs: &mut Vec<Run>,
    log: &mut Vec<Addition>,
    addition: Addition,
) -> Result<bool, NoMemory>
    requires { addition.number < length runs.old.items }
    ensures added { IfOk result (λ added. added
        ≡ not (spec.has_moment (spec.run_at runs.old.items addition.number) addition.at)) }
    ensures runs { OnOk result (runs.new.items ≡ spec.runs_with runs.old.items addition) }
    ensures log { OnOk result (log.new.items ≡ spec.log_with runs.old.items log.old.items addition) }
    ensures runs_stay { OnErr result (runs.new.items ≡ runs.old.items) }
    ensures log_stays { OnErr result (log.new.items ≡ log.old.items) }
{
    log.reserve(1)?;
    if runs[addition.number].add(addition.at, addition.value)? {
        log.push(addition).unwrap();
        Ok(true)
    } else {
        Ok(false)
    }
}
