ghost use Rattle.std.specs.Prelude.{◌≡◌, [], ◌∷◌, ◌++◌, OnOk};
ghost use Rattle.srv_store.specs.LabelMaps.{stale_entries};

use crate::entry::Entry;
use crate::map::LabelMap;
use op_base::{Labels, List, Moment, NoMemory};

/// Pushes a staleness marker at the moment for each of the label sets that the map hasn't.
pub fn push_stale<V>(
    entries: &mut List<Entry>,
    t: Moment,
    before: &[Labels],
    given: &LabelMap<V>,
) -> Result<(), NoMemory>
    ensures { OnOk result (entries.new ≡ entries.old ++ stale_entries t before.now given.now) }
{
    for labels in before {
        push_stale_one(entries, t, labels, given)?;
    }
    Ok(())
}

fn push_stale_one<V>(
    entries: &mut List<Entry>,
    t: Moment,
    labels: &Labels,
    given: &LabelMap<V>,
) -> Result<(), NoMemory>
    ensures { OnOk result (entries.new ≡ entries.old ++ stale_entries t (labels.now ∷ []) given.now) }
{
    match given.get(labels) {
        Some(_) => Ok(()),
        None => entries.push(Entry {
            labels: labels.copy()?,
            at: t,
            value: None,
        }),
    }
}
