ghost use Rattle.std.specs.Prelude.{◌≡◌};

use op_base::Text;
use std::cmp::Ordering;
use std::marker::Model;

/// A name that stands before all longer ones, and among those of its length by its bytes.
#[derive(Debug, Drop)]
pub(crate) struct ShorterFirst {
    name: Text,
}

impl Model for ShorterFirst {
    ghost use Rattle.std.specs.Prelude.{List, ℕ};

    ghost Value = { List ℕ };

    ghost view = { λ it. it.name };
}

impl ShorterFirst {
    pub(crate) fn new(name: Text) -> ShorterFirst
        ensures { result ≡ name }
    {
        ShorterFirst { name }
    }

    pub(crate) fn as_str(&self) -> &str
        ensures { result.now ≡ self.now }
    {
        self.name.as_str()
    }
}

impl PartialEq for ShorterFirst {
    ghost use Rattle.std.specs.Ordering.{eq_by_cmp};
    ghost use Rattle.std.specs.Cmp.Rules.{comparing};
    ghost use Rattle.std.proofs.Common.{rules};
    ghost use Rattle.srv_scrape.specs.Joined.{name_cmp};

    ghost eq = { eq_by_cmp name_cmp };

    ghost laws = { Prim.search (comparing, rules) };

    fn eq(&self, other: &ShorterFirst) -> bool {
        match self.cmp(other) {
            Ordering::Equal => true,
            _ => false,
        }
    }
}

impl Eq for ShorterFirst {
    ghost use Rattle.std.specs.Cmp.Rules.{comparing};
    ghost use Rattle.std.proofs.Common.{rules};

    ghost laws = { Prim.search (comparing, rules) };
}

impl PartialOrd for ShorterFirst {
    ghost use Rattle.std.specs.Ordering.{as_partial_cmp};
    ghost use Rattle.std.specs.Cmp.{partial_order_from_own_ties};
    ghost use Rattle.std.specs.Cmp.Rules.{comparing};
    ghost use Rattle.std.proofs.Common.{rules};
    ghost use Rattle.srv_scrape.specs.Joined.{name_cmp};

    ghost partial_cmp = { as_partial_cmp name_cmp };

    ghost laws = { partial_order_from_own_ties (Prim.search (comparing, rules)) (Prim.search (comparing, rules)) };

    fn partial_cmp(&self, other: &ShorterFirst) -> Option<Ordering> {
        Some(self.cmp(other))
    }
}

impl Ord for ShorterFirst {
    ghost use Rattle.std.specs.Cmp.Rules.{comparing};
    ghost use Rattle.std.proofs.Common.{rules};
    ghost use Rattle.srv_scrape.specs.Joined.{name_cmp};

    ghost cmp = { name_cmp };

    ghost total = { Prim.search (comparing, rules) };

    ghost matches_partial_cmp = { Prim.search (comparing, rules) };

    ghost matches_eq = { Prim.search (comparing, rules) };

    fn cmp(&self, other: &ShorterFirst) -> Ordering {
        match self.name.len().cmp(&other.name.len()) {
            Ordering::Equal => self.name.cmp(&other.name),
            apart => apart,
        }
    }
}
