ghost use Rattle.std.specs.Prelude.{◌≡◌, ◌∷◌, ◌++◌, [], map, IfOk, OnOk};
ghost use Rattle.op_base.specs.Maps.{keys_of};
ghost use Rattle.srv_scrape.specs.Ticks.{by_labels};
ghost use Rattle.srv_run.specs.Shares as spec;
ghost use Rattle.srv_run.specs.Ticking.{told, shared_line, is_among};

use crate::shares::{Shares, by_home, by_namespace, copy_of};
use op_base::{Labels, List, Moment, NAMESPACE_LABEL, NoMemory, Table, Text};
use op_report::{Report, View};
use srv_rule::FailedRule;
use srv_store::{Entry, LabelMap};
use std::alloc::Global;

/// The lines of a tick: for each known namespace in order, and then for everyone. They take n log n
/// steps in the failed rules, the entries and the namespaces.
pub fn tick_reports(
    alloc: Global,
    known: &Table<()>,
    failed: List<FailedRule>,
    added: List<Entry>,
    t: Moment,
) -> Result<List<Report>, NoMemory>
    ensures { IfOk result (λ reports. reports
        ≡ spec.tick_reports (keys_of known.now) (told failed added) t) }
{
    let to_all = global_report(alloc, known, failed.as_slice(), added.as_slice(), t)?;
    let mut reports = tenant_reports(alloc, known, failed, added, t)?;
    reports.push(to_all)?;
    Ok(reports)
}

fn tenant_reports(
    alloc: Global,
    known: &Table<()>,
    failed: List<FailedRule>,
    added: List<Entry>,
    t: Moment,
) -> Result<List<Report>, NoMemory>
    ensures { IfOk result (λ reports. reports
        ≡ map (spec.tenant_report (told failed added) t) (keys_of known.now)) }
{
    let rules = by_namespace(alloc, failed)?;
    let entries = by_home(alloc, added)?;
    let names = known.keys(alloc)?;
    shared_reports(alloc, names.as_slice(), &rules, &entries, t)
}

fn shared_reports(
    alloc: Global,
    names: &[Text],
    rules: &Shares<FailedRule>,
    entries: &Shares<Entry>,
    t: Moment,
) -> Result<List<Report>, NoMemory>
    ensures { IfOk result (λ reports. reports
        ≡ map (shared_line rules.now entries.now t) names.now) }
{
    let mut reports = List::new(alloc);
    for name in names {
        reports.push(Report {
            to: Some(name.clone()?),
            view: tick_view(alloc, rules.members(name), entries.members(name), t)?,
        })?;
    }
    Ok(reports)
}

fn global_report(
    alloc: Global,
    known: &Table<()>,
    failed: &[FailedRule],
    added: &[Entry],
    t: Moment,
) -> Result<Report, NoMemory>
    ensures { IfOk result (λ report. report ≡ spec.global_report (keys_of known.now)
        (told failed.now added.now) t) }
{
    let rules = failed_elsewhere(alloc, known, failed)?;
    let entries = homeless(alloc, known, added)?;
    Ok(Report {
        to: None,
        view: tick_view(alloc, rules.as_slice(), entries.as_slice(), t)?,
    })
}

// What a line says of failed rules and entries.
fn tick_view(
    alloc: Global,
    failed: &[FailedRule],
    added: &[Entry],
    t: Moment,
) -> Result<View, NoMemory>
    ensures { IfOk result (λ view. view ≡ spec.tick_view failed.now added.now t) }
{
    Ok(View::Tick {
        alerts: List::new(alloc),
        failed: failed_parts(alloc, failed)?,
        stored: in_label_order(alloc, added)?,
        at: t,
    })
}

fn failed_parts(alloc: Global, failed: &[FailedRule]) -> Result<List<(Text, Text, u64)>, NoMemory>
    ensures { IfOk result (λ parts. parts ≡ map spec.failed_parts failed.now) }
{
    let mut parts = List::new(alloc);
    for rule in failed {
        parts.push((rule.name.clone()?, rule.group.clone()?, rule.index))?;
    }
    Ok(parts)
}

fn in_label_order(alloc: Global, added: &[Entry]) -> Result<List<(Labels, Option<i64>)>, NoMemory>
    ensures { IfOk result (λ stored. stored ≡ by_labels added.now) }
{
    placed(alloc, added)?.into_entries(alloc)
}

fn placed(alloc: Global, added: &[Entry]) -> Result<LabelMap<Option<i64>>, NoMemory>
    ensures { IfOk result (λ placed. placed ≡ by_labels added.now) }
{
    let mut placed = LabelMap::new(alloc);
    for entry in added {
        placed.insert(entry.labels.copy()?, entry.value)?;
    }
    Ok(placed)
}

fn homeless(alloc: Global, known: &Table<()>, added: &[Entry]) -> Result<List<Entry>, NoMemory>
    ensures { IfOk result (λ entries. entries ≡ spec.homeless (keys_of known.now) added.now) }
{
    let mut entries = List::new(alloc);
    for entry in added {
        push_homeless(&mut entries, known, entry)?;
    }
    Ok(entries)
}

fn push_homeless(
    entries: &mut List<Entry>,
    known: &Table<()>,
    entry: &Entry,
) -> Result<(), NoMemory>
    ensures { OnOk result (entries.new
        ≡ entries.old ++ spec.homeless (keys_of known.now) (entry.now ∷ [])) }
{
    if is_known(known, entry.labels.value(NAMESPACE_LABEL)) {
        return Ok(());
    }
    entries.push(entry.copy()?)
}

fn failed_elsewhere(
    alloc: Global,
    known: &Table<()>,
    failed: &[FailedRule],
) -> Result<List<FailedRule>, NoMemory>
    ensures { IfOk result (λ rules. rules ≡ spec.failed_elsewhere (keys_of known.now) failed.now) }
{
    let mut rules = List::new(alloc);
    for rule in failed {
        push_elsewhere(&mut rules, known, rule)?;
    }
    Ok(rules)
}

fn push_elsewhere(
    rules: &mut List<FailedRule>,
    known: &Table<()>,
    rule: &FailedRule,
) -> Result<(), NoMemory>
    ensures { OnOk result (rules.new
        ≡ rules.old ++ spec.failed_elsewhere (keys_of known.now) (rule.now ∷ [])) }
{
    if is_known(known, rule.namespace.as_str()) {
        return Ok(());
    }
    rules.push(copy_of(rule)?)
}

fn is_known(known: &Table<()>, name: &str) -> bool
    ensures { result ≡ is_among (keys_of known.now) name.now }
{
    match known.get(name) {
        Some(_) => true,
        None => false,
    }
}
