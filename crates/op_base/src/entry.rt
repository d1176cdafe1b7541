// One entry of a label set or of tags, which copies share.
ghost use Rattle.std.specs.Prelude.{◌≡◌, IfOk};

use crate::memory::NoMemory;
use crate::text::Text;
use std::alloc::{AllocError, Global};
use std::cmp::Ordering;
use std::hash::{Hash, Hasher};
use std::marker::Model;
use std::rc::Rc;

// Contracts see the name and the text.
#[derive(Debug, Drop)]
pub(crate) struct Entry {
    pair: Rc<(Text, Text)>,
}

impl Model for Entry {
    ghost use Rattle.std.specs.Prelude.{List, ℕ};
    ghost use Rattle.std.specs.Coded.{coded_list, coded_ℕ, coded×};

    ghost Value = { List ℕ × List ℕ };

    ghost coded = { coded× (coded_list coded_ℕ) (coded_list coded_ℕ) };

    ghost view = { λ entry. entry.pair.value };
}

impl Entry {
    pub(crate) fn new(alloc: Global, name: &str, text: &str) -> Result<Entry, NoMemory>
        ensures { IfOk result (λ entry. entry ≡ (name.now, text.now)) }
    {
        let name = Text::from_str(alloc, name)?;
        let text = Text::from_str(alloc, text)?;
        Ok(Entry {
            pair: Rc::new(alloc, (name, text))?,
        })
    }

    pub(crate) fn name(&self) -> &str
        ensures { result.now ≡ self.now.0 }
    {
        self.pair.as_ref().0.as_str()
    }

    pub(crate) fn text(&self) -> &str
        ensures { result.now ≡ self.now.1 }
    {
        self.pair.as_ref().1.as_str()
    }
}

impl Clone for Entry {
    ghost is_clone = { λ entry copy. copy ≡ entry };

    fn clone(&self) -> Result<Entry, AllocError> {
        Ok(Entry {
            pair: self.pair.clone()?,
        })
    }
}

impl PartialEq for Entry {
    ghost use Rattle.std.specs.Cmp.Rules.{comparing};
    ghost use Rattle.std.proofs.Common.{rules};
    ghost use Rattle.op_base.specs.Labels.{entry_eq};

    ghost eq = { entry_eq };

    ghost laws = { Prim.search (comparing, rules) };

    fn eq(&self, other: &Entry) -> bool {
        self.pair.as_ref() == other.pair.as_ref()
    }
}

impl Eq for Entry {
    ghost use Rattle.std.specs.Cmp.Rules.{comparing};
    ghost use Rattle.std.proofs.Common.{rules};

    ghost laws = { Prim.search (comparing, rules) };
}

impl PartialOrd for Entry {
    ghost use Rattle.std.specs.Ordering.{as_partial_cmp};
    ghost use Rattle.std.specs.Cmp.{partial_order_from_own_ties};
    ghost use Rattle.std.specs.Cmp.Rules.{comparing};
    ghost use Rattle.std.proofs.Common.{rules};
    ghost use Rattle.op_base.specs.Labels.{entry_cmp, entry_ties};

    ghost partial_cmp = { as_partial_cmp entry_cmp };

    ghost laws = { partial_order_from_own_ties (Prim.search (comparing, rules)) entry_ties };

    fn partial_cmp(&self, other: &Entry) -> Option<Ordering> {
        Some(self.cmp(other))
    }
}

impl Ord for Entry {
    ghost use Rattle.std.specs.Cmp.Rules.{comparing};
    ghost use Rattle.std.proofs.Common.{rules};
    ghost use Rattle.op_base.specs.Labels.{entry_cmp, entry_ties};

    ghost cmp = { entry_cmp };

    ghost total = { Prim.search (comparing, rules) };

    ghost matches_partial_cmp = { Prim.search (comparing, rules) };

    ghost matches_eq = { entry_ties };

    fn cmp(&self, other: &Entry) -> Ordering {
        self.pair.as_ref().cmp(other.pair.as_ref())
    }
}

impl Hash for Entry {
    ghost use Rattle.op_base.specs.Labels.{entry_fed, entry_fed_alike};

    ghost hash_input = { entry_fed };

    ghost respects_eq = { entry_fed_alike };

    fn hash<H: Hasher>(&self, state: &mut H) {
        self.pair.as_ref().hash(state);
    }
}
