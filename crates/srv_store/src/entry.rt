ghost use Rattle.std.specs.Prelude.{◌≡◌, IfOk};

use op_base::{Labels, Moment, NoMemory};

/// What a store keeps: a label set, a moment, and a value, or none for a staleness marker.
#[derive(Debug, PartialEq, Eq, Drop)]
pub struct Entry {
    pub labels: Labels,
    pub at: Moment,
    pub value: Option<i64>,
}

impl Entry {
    /// An equal entry.
    pub fn copy(&self) -> Result<Entry, NoMemory>
        ensures { IfOk result (λ entry. entry ≡ self.now) }
    {
        Ok(Entry {
            labels: self.labels.copy()?,
            at: self.at,
            value: self.value,
        })
    }
}
