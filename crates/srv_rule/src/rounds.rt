ghost use Rattle.std.specs.Prelude.{◌≡◌, [], ◌∷◌, ◌++◌, map, unwrap_or, IfOk, OnOk, OnErr};
ghost use Rattle.srv_store.specs.LabelMaps.{labels_in, stale_entries};
ghost use Rattle.srv_store.specs.Stores.{AddsPrefix};
ghost use Rattle.srv_rule.specs.Running.{placed_as, ran, after, succeeded, IsBehind};
ghost use Rattle.srv_rule.specs.Rounds as spec;

use crate::results::results_of;
use crate::states::{RuleId, RuleStates};
use crate::view::{FailedRule, RoundView};
use cfg_types::{Group, Rule, RuleFile, file_text};
use op_base::{Labels, List, Moment, NoMemory};
use srv_store::{Entry, LabelMap, Store, push_stale};
use std::alloc::Global;

// What a round has done so far, beside the store.
#[derive(Debug, Drop)]
struct Progress {
    states: RuleStates,
    failed: List<FailedRule>,
    added: List<Entry>,
}

// A rule of a file, with its group and its place there.
#[derive(Drop)]
struct Place<'a> {
    file: &'a RuleFile,
    group: &'a Group,
    index: u64,
    rule: &'a Rule,
}

/// Runs the rules of all files at the moment, and stores what they record. An error leaves some of
/// the first entries stored, and the states as they were.
pub fn round(
    alloc: Global,
    files: &List<RuleFile>,
    store: &mut Store,
    states: &mut RuleStates,
    t: Moment,
) -> Result<RoundView, NoMemory>
    ensures ok { IfOk result (λ view. spec.ran_of store.new states.new view.failed
        ≡ spec.round_of files.now [] [] t states.old store.old) }
    ensures err { OnErr result (AddsPrefix store.old store.new
        (spec.stored (spec.round_of files.now [] [] t states.old store.old))) }
    ensures states { OnErr result (states.new ≡ states.old) }
{
    match next_round(alloc, files, store, states, t) {
        Ok((next, view, _added)) => {
            *states = next;
            Ok(view)
        }
        Err(NoMemory) => Err(NoMemory),
    }
}

/// A round that leaves the states of before, and answers those that stand after it, and the entries that
/// it stored.
pub fn next_round(
    alloc: Global,
    files: &List<RuleFile>,
    store: &mut Store,
    states: &RuleStates,
    t: Moment,
) -> Result<(RuleStates, RoundView, List<Entry>), NoMemory>
    ensures ok { IfOk result (λ given. spec.ran_of store.new given.0 given.1.failed
        ≡ spec.round_of files.now [] [] t states.now store.old) }
    ensures added { IfOk result (λ given. store.new ≡ store.old ++ given.2) }
    ensures err { OnErr result (AddsPrefix store.old store.new
        (spec.stored (spec.round_of files.now [] [] t states.now store.old))) }
{
    let mut progress = Progress {
        states: RuleStates::new(alloc),
        failed: List::new(alloc),
        added: List::new(alloc),
    };
    run_files(alloc, store, &mut progress, states, files, t)?;
    let gone = store.add_all(states.gone_entries(alloc, &progress.states, t)?)?;
    progress.added.append(gone)?;
    let Progress {
        states: next,
        failed,
        added,
    } = progress;
    Ok((next, RoundView { failed }, added))
}

fn run_files(
    alloc: Global,
    store: &mut Store,
    progress: &mut Progress,
    before: &RuleStates,
    files: &List<RuleFile>,
    t: Moment,
) -> Result<(), NoMemory>
    ensures ok { OnOk result (ran store.new progress.new
        ≡ after t before.now (ran store.old progress.old) (spec.placed_of files.now)) }
    ensures added { (base : _) → IsBehind base store.old progress.old → OnOk result (IsBehind base store.new progress.new) }
    ensures err { OnErr result (AddsPrefix store.old store.new
        (spec.stored (after t before.now (ran store.old progress.old) (spec.placed_of files.now)))) }
{
    for file in files.as_slice() {
        run_file(alloc, store, progress, before, file, t)?;
    }
    Ok(())
}

fn run_file(
    alloc: Global,
    store: &mut Store,
    progress: &mut Progress,
    before: &RuleStates,
    file: &RuleFile,
    t: Moment,
) -> Result<(), NoMemory>
    ensures ok { OnOk result (ran store.new progress.new
        ≡ after t before.now (ran store.old progress.old) (spec.placed_in file.now)) }
    ensures added { (base : _) → IsBehind base store.old progress.old → OnOk result (IsBehind base store.new progress.new) }
    ensures err { OnErr result (AddsPrefix store.old store.new
        (spec.stored (after t before.now (ran store.old progress.old) (spec.placed_in file.now)))) }
{
    for group in file.groups.as_slice() {
        run_group(alloc, store, progress, before, file, group, t)?;
    }
    Ok(())
}

fn run_group(
    alloc: Global,
    store: &mut Store,
    progress: &mut Progress,
    before: &RuleStates,
    file: &RuleFile,
    group: &Group,
    t: Moment,
) -> Result<(), NoMemory>
    ensures ok { OnOk result (ran store.new progress.new
        ≡ after t before.now (ran store.old progress.old)
        (spec.placed_from file.now group.now.name 0 group.now.rules)) }
    ensures added { (base : _) → IsBehind base store.old progress.old → OnOk result (IsBehind base store.new progress.new) }
    ensures err { OnErr result (AddsPrefix store.old store.new
        (spec.stored (after t before.now (ran store.old progress.old)
        (spec.placed_from file.now group.now.name 0 group.now.rules)))) }
{
    let mut index = 0;
    for rule in group.rules.as_slice() {
        let place = Place {
            file,
            group,
            index,
            rule,
        };
        run_rule(alloc, store, progress, before, &place, t)?;
        index += 1;
    }
    Ok(())
}

fn run_rule(
    alloc: Global,
    store: &mut Store,
    progress: &mut Progress,
    before: &RuleStates,
    place: &Place<'_>,
    t: Moment,
) -> Result<(), NoMemory>
    ensures ok { OnOk result (ran store.new progress.new
        ≡ after t before.now (ran store.old progress.old) (placed_as place.entry.now ∷ [])) }
    ensures added { (base : _) → IsBehind base store.old progress.old → OnOk result (IsBehind base store.new progress.new) }
    ensures err { OnErr result (AddsPrefix store.old store.new
        (spec.stored (after t before.now (ran store.old progress.old) (placed_as place.entry.now ∷ [])))) }
{
    match results_of(alloc, store, place.rule, t)? {
        None => fail(alloc, progress, before, place),
        Some(results) => succeed(alloc, store, progress, before, place, results, t),
    }
}

// The rule failed: its state stays.
fn fail(
    alloc: Global,
    progress: &mut Progress,
    before: &RuleStates,
    place: &Place<'_>,
) -> Result<(), NoMemory>
    ensures added { OnOk result (progress.new.added ≡ progress.old.added) }
    ensures failed { (store : _) → OnOk result (ran store progress.new
        ≡ spec.after_failure (ran store progress.old) (placed_as place.entry.now)
        (spec.last_of before.now (spec.id_of (placed_as place.entry.now)))) }
{
    progress.failed.push(FailedRule {
        namespace: place.file.namespace.clone()?,
        name: place.file.name.clone()?,
        group: place.group.name.clone()?,
        index: place.index,
    })?;
    let id = id_of(place)?;
    match before.last_of(&id) {
        Some(last) => progress
            .states
            .insert(id, copies_of(alloc, last.as_slice())?),
        None => Ok(()),
    }
}

fn id_of(place: &Place<'_>) -> Result<RuleId, NoMemory>
    ensures { IfOk result (λ id. id ≡ spec.id_of (placed_as place.entry.now)) }
{
    Ok(RuleId {
        file: file_text(place.file)?,
        namespace: place.file.namespace.clone()?,
        group: place.group.name.clone()?,
        place: place.index,
        name: place.rule.name.clone()?,
    })
}

fn succeed(
    alloc: Global,
    store: &mut Store,
    progress: &mut Progress,
    before: &RuleStates,
    place: &Place<'_>,
    results: LabelMap<i64>,
    t: Moment,
) -> Result<(), NoMemory>
    ensures ok { OnOk result (ran store.new progress.new
        ≡ succeeded t before.now (ran store.old progress.old) (placed_as place.entry.now) results) }
    ensures added { (base : _) → IsBehind base store.old progress.old → OnOk result (IsBehind base store.new progress.new) }
    ensures err { OnErr result (AddsPrefix store.old store.new
        (spec.stored (succeeded t before.now (ran store.old progress.old) (placed_as place.entry.now) results))) }
{
    let id = id_of(place)?;
    let stale = stale_of(alloc, before, &id, &results, t)?;
    let elements = results.into_entries(alloc)?;
    let mut entries = values_of(alloc, elements.as_slice(), t)?;
    entries.append(stale)?;
    progress.states.insert(id, labels_of(alloc, elements)?)?;
    let added = store.add_all(entries)?;
    progress.added.append(added)
}

// Stale entries for what the rule gave at its last success and doesn't give now.
fn stale_of(
    alloc: Global,
    before: &RuleStates,
    id: &RuleId,
    results: &LabelMap<i64>,
    t: Moment,
) -> Result<List<Entry>, NoMemory>
    ensures { IfOk result (λ entries. entries
        ≡ stale_entries t (unwrap_or (spec.last_of before.now id.now) []) results.now) }
{
    let mut entries = List::new(alloc);
    match before.last_of(id) {
        Some(last) => push_stale(&mut entries, t, last.as_slice(), results)?,
        None => (),
    }
    Ok(entries)
}

fn values_of(alloc: Global, elements: &[(Labels, i64)], t: Moment) -> Result<List<Entry>, NoMemory>
    ensures { IfOk result (λ entries. entries ≡ spec.value_entries t elements.now) }
{
    let mut entries = List::new(alloc);
    for element in elements {
        entries.push(Entry {
            labels: element.0.copy()?,
            at: t,
            value: Some(element.1),
        })?;
    }
    Ok(entries)
}

fn labels_of(alloc: Global, elements: List<(Labels, i64)>) -> Result<List<Labels>, NoMemory>
    ensures { IfOk result (λ all. all ≡ labels_in elements) }
{
    let mut all = List::new(alloc);
    for (labels, _value) in elements.into_vec() {
        all.push(labels)?;
    }
    Ok(all)
}

fn copies_of(alloc: Global, given: &[Labels]) -> Result<List<Labels>, NoMemory>
    ensures { IfOk result (λ all. all ≡ given.now) }
{
    let mut all = List::new(alloc);
    for labels in given {
        all.push(labels.copy()?)?;
    }
    Ok(all)
}
