ghost use Rattle.std.specs.Prelude.{◌≡◌, [], ◌∷◌, ◌++◌, OnOk, OnErr, IfOk};
ghost use Rattle.std.specs.FinMap as finite;
ghost use Rattle.std.specs.Option.{option_copied};
ghost use Rattle.srv_rule.specs.Rounds as spec;

use op_base::{Labels, List, Moment, NoMemory, OrderedMap, Text};
use srv_store::{Entry, LabelMap, push_stale};
use std::alloc::Global;
use std::marker::Model;

/// What a rule is known by, whatever its expression: the text `NAMESPACE/NAME` of its object and that
/// object's namespace, its group, its place there counted from 0, and the name that it records.
#[derive(Debug, PartialEq, Eq, PartialOrd, Ord, Drop)]
pub struct RuleId {
    pub file: Text,
    pub namespace: Text,
    pub group: Text,
    pub place: u64,
    pub name: Text,
}

/// The states of rules: for each one that succeeded the label sets that it gave at its last success.
/// Contracts see the list of both in the order of the rules.
#[derive(Debug, Drop)]
pub struct RuleStates {
    states: OrderedMap<RuleId, List<Labels>>,
}

impl Model for RuleStates {
    ghost use Rattle.srv_rule.specs.Rounds.{States};

    ghost Value = { States };

    ghost view = { λ all. all.states };
}

impl RuleStates {
    /// No states.
    pub fn new(alloc: Global) -> RuleStates
        ensures { result ≡ [] }
    {
        RuleStates {
            states: OrderedMap::new(alloc),
        }
    }

    /// The label sets that the rule gave at its last success.
    pub(crate) fn last_of(&self, id: &RuleId) -> Option<&List<Labels>>
        ensures { option_copied result ≡ spec.last_of self.now id.now }
    {
        self.states.get(id)
    }

    pub(crate) fn insert(&mut self, id: RuleId, last: List<Labels>) -> Result<(), NoMemory>
        ensures ok { OnOk result (self.new ≡ finite.put spec.id_cmp id last self.old) }
        ensures err { OnErr result (self.new ≡ self.old) }
    {
        self.states.insert(id, last)
    }

    // Stale entries for the label sets of the rules that have no state among the next ones.
    pub(crate) fn gone_entries(
        &self,
        alloc: Global,
        next: &RuleStates,
        t: Moment,
    ) -> Result<List<Entry>, NoMemory>
        ensures { IfOk result (λ entries. entries ≡ spec.gone_entries t (spec.gone self.now next.now)) }
    {
        let none = LabelMap::new(alloc);
        let mut entries = List::new(alloc);
        for (id, last) in self.states.iter() {
            push_gone(&mut entries, next, id, last, &none, t)?;
        }
        Ok(entries)
    }
}

fn push_gone(
    entries: &mut List<Entry>,
    next: &RuleStates,
    id: &RuleId,
    last: &List<Labels>,
    none: &LabelMap<i64>,
    t: Moment,
) -> Result<(), NoMemory>
    requires { none.now ≡ [] }
    ensures { OnOk result (entries.new ≡ entries.old ++ spec.gone_entries t (spec.gone ((id.now, last.now) ∷ []) next.now)) }
{
    match next.last_of(id) {
        Some(_) => Ok(()),
        None => push_stale(entries, t, last.as_slice(), none),
    }
}
