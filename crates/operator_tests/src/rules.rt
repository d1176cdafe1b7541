//! A round of rules that keeps its states.

use crate::things::{is_so, label, list_of, text};
use cfg_types::{Group, Rule, RuleFile};
use op_base::{List, METRIC_NAME, Moment, NoMemory, Tags};
use ql_tree::Expr;
use srv_rule::{RuleStates, round};
use srv_store::{Entry, Store};
use std::alloc::Global;

/// A rule that records `up` as `x`.
fn rule(alloc: Global) -> Result<Rule, NoMemory> {
    Ok(Rule {
        name: text(alloc, "x")?,
        expr: Expr::Select {
            name: Some(text(alloc, "up")?),
            matchers: List::new(alloc),
            range: None,
            offset: None,
        },
        labels: Tags::new(alloc),
    })
}

fn files(alloc: Global) -> Result<List<RuleFile>, NoMemory> {
    let group = Group {
        name: text(alloc, "g")?,
        rules: list_of(alloc, rule(alloc)?)?,
    };
    let file = RuleFile {
        namespace: text(alloc, "a")?,
        name: text(alloc, "r")?,
        groups: list_of(alloc, group)?,
    };
    list_of(alloc, file)
}

/// A store with `up` at the moment 0.
fn filled(alloc: Global) -> Result<Store, NoMemory> {
    let mut store = Store::new(alloc);
    store.add(Entry {
        labels: label(alloc, METRIC_NAME, "up")?,
        at: Moment(0),
        value: Some(1),
    })?;
    Ok(store)
}

/// Whether no rule of the files fails in a round at the moment.
fn runs(
    alloc: Global,
    files: &List<RuleFile>,
    store: &mut Store,
    states: &mut RuleStates,
    t: Moment,
) -> Result<bool, NoMemory> {
    Ok(round(alloc, files, store, states, t)?.failed.len() == 0)
}

/// Whether there is one entry more after a round with the rule, which is what it recorded, and another after
/// one without it, a marker since the rule is gone.
fn records_and_marks(alloc: Global) -> Result<bool, NoMemory> {
    let files = files(alloc)?;
    let mut store = filled(alloc)?;
    let mut states = RuleStates::new(alloc);
    let has_run = runs(alloc, &files, &mut store, &mut states, Moment(0))?;
    let is_recorded = has_run && store.len() == 2;
    runs(alloc, &List::new(alloc), &mut store, &mut states, Moment(1))?;
    Ok(is_recorded && store.len() == 3)
}

#[test]
fn a_round_records_and_marks(rt: HostRuntime) {
    assert!(rt; is_so(records_and_marks(rt.alloc())));
}
