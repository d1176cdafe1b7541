ghost use Rattle.std.specs.Prelude.{◌≡◌, ◌+◌, nat_lt, length, is_some, IfOk, OnOk, OnErr};
ghost use Rattle.op_base.specs.Maps.{value_at};
ghost use Rattle.std.specs.List.{AllByRecursion};
ghost use Rattle.op_thin.specs.Judged.{IsTyped};
ghost use Rattle.op_thin.specs.Objects as spec;

use crate::item::Item;
use crate::probe::ThinProbe;
use crate::rule::ThinRule;
use op_base::{List, NoMemory, Table, Text};
use std::alloc::Global;
use std::marker::Model;
use std::mem::drop;

/// How many objects a namespace may have.
const MOST_OBJECTS: usize = 1_000;

/// The objects that are present: thin rules and thin probes by namespace and name. The expression of
/// each rule that is taken is a scalar or a vector.
#[derive(Debug, Drop)]
pub struct Objects {
    alloc: Global,
    rules: Table<Table<ThinRule>>,
    probes: Table<Table<ThinProbe>>,
}

impl Model for Objects {
    ghost use Rattle.std.specs.Coded.{codes};
    ghost use Rattle.ql_tree.specs.contracts.tree.Expr as expr;
    ghost use Rattle.op_thin.specs.Objects.{Present, AreJudged};

    ghost Value = { Present };

    ghost coded = { Prim.hlevel (codes, expr.the_row.coded) };

    ghost view = { λ objects. record { rules = objects.rules; probes = objects.probes } };

    ghost invariant = { λ objects. AreJudged objects.rules };
}

impl Objects {
    /// No objects.
    pub fn new(alloc: Global) -> Objects
        ensures { result ≡ spec.nothing }
    {
        Objects {
            alloc,
            rules: Table::new(alloc),
            probes: Table::new(alloc),
        }
    }

    /// Puts the rule, in place of an earlier one of its key. Answers false, and puts nothing, where the
    /// key is new and the namespace is full.
    pub fn put_rule(&mut self, rule: ThinRule) -> Result<bool, NoMemory>
        requires { IsTyped rule.judged }
        ensures taken { IfOk result (λ taken. taken ≡ spec.rule_fits self.old rule) }
        ensures ok { OnOk result (self.new ≡ spec.objects_after self.old (Item.Rule rule)) }
        ensures err { OnErr result (self.new ≡ self.old) }
    {
        let there = has(&self.rules, rule.namespace.as_str(), rule.name.as_str());
        if !there && !self.has_room(rule.namespace.as_str()) {
            drop(rule);
            return Ok(false);
        }
        let (namespace, name) = copied(&rule.namespace, &rule.name)?;
        self.rules.insert_in(self.alloc, namespace, name, rule)?;
        Ok(true)
    }

    /// Puts the probe, in place of an earlier one of its key. Answers false, and puts nothing, where the
    /// key is new and the namespace is full.
    pub fn put_probe(&mut self, probe: ThinProbe) -> Result<bool, NoMemory>
        ensures taken { IfOk result (λ taken. taken ≡ spec.probe_fits self.old probe) }
        ensures ok { OnOk result (self.new ≡ spec.objects_after self.old (Item.Probe probe)) }
        ensures err { OnErr result (self.new ≡ self.old) }
    {
        let there = has(&self.probes, probe.namespace.as_str(), probe.name.as_str());
        if !there && !self.has_room(probe.namespace.as_str()) {
            return Ok(false);
        }
        let (namespace, name) = copied(&probe.namespace, &probe.name)?;
        self.probes.insert_in(self.alloc, namespace, name, probe)?;
        Ok(true)
    }

    /// All rules and all probes, each by namespace and name.
    pub fn into_all(self, alloc: Global) -> Result<(List<ThinRule>, List<ThinProbe>), NoMemory>
        ensures all { IfOk result (λ all. all ≡ (spec.all_of self.rules, spec.all_of self.probes)) }
        ensures judged { IfOk result (λ all. AllByRecursion (λ rule. IsTyped rule.judged) all.0) }
    {
        let Objects {
            alloc: _,
            rules,
            probes,
        } = self;
        Ok((all_of(alloc, rules)?, all_of(alloc, probes)?))
    }

    // Whether the namespace isn't full.
    fn has_room(&self, namespace: &str) -> bool
        ensures { result ≡ nat_lt (spec.count_in self.now namespace.now) spec.most_objects }
    {
        both_fit(
            len_at(&self.rules, namespace),
            len_at(&self.probes, namespace),
        )
    }
}

fn copied(namespace: &Text, name: &Text) -> Result<(Text, Text), NoMemory>
    ensures { IfOk result (λ texts. texts ≡ (namespace.now, name.now)) }
{
    Ok((namespace.clone()?, name.clone()?))
}

// Whether a namespace with so many rules and so many probes isn't full.
fn both_fit(rules: usize, probes: usize) -> bool
    ensures { result ≡ nat_lt (rules + probes) spec.most_objects }
{
    rules < MOST_OBJECTS && probes < MOST_OBJECTS - rules
}

fn has<V>(objects: &Table<Table<V>>, namespace: &str, name: &str) -> bool
    ensures { result ≡ is_some (value_at (spec.inner_at objects.now namespace.now) name.now) }
{
    match objects.get(namespace) {
        Some(inner) => inner.get(name).is_some(),
        None => false,
    }
}

fn len_at<V>(objects: &Table<Table<V>>, namespace: &str) -> usize
    ensures { result ≡ length (spec.inner_at objects.now namespace.now) }
{
    match objects.get(namespace) {
        Some(inner) => inner.len(),
        None => 0,
    }
}

fn all_of<V: Drop>(alloc: Global, objects: Table<Table<V>>) -> Result<List<V>, NoMemory>
    ensures { IfOk result (λ all. all ≡ spec.all_of objects) }
{
    let mut all = List::new(alloc);
    for inner in objects.into_values(alloc)?.into_vec() {
        all.append(inner.into_values(alloc)?)?;
    }
    Ok(all)
}
