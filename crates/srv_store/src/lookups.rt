// What is looked up in the runs of a store.
ghost use Rattle.std.specs.Prelude.{◌≡◌, [], ◌∷◌, ◌++◌, map, IfOk, OnOk};
ghost use Rattle.std.specs.List.{flat_map};
ghost use Rattle.srv_store.specs.Indexes.{IsIndex};
ghost use Rattle.srv_store.specs.Runs as runs_spec;
ghost use Rattle.srv_store.specs.Stores as spec;
ghost use Rattle.srv_store.specs.Stores.{point_of};

use crate::candidates::candidates;
use crate::entry::Entry;
use crate::map::LabelMap;
use crate::run::Run;
use indexmap::IndexSet;
use op_base::{Labels, List, Matcher, Moment, NoMemory, Pattern, PreparedMatcher, Table};
use std::alloc::Global;

/// The numbers of the label sets on which all matchers hold, by the label sets. Only those are looked at
/// that have all labels that a matcher asks for.
pub(crate) fn found_runs(
    alloc: Global,
    keys: &IndexSet<Labels>,
    index: &LabelMap<List<usize>>,
    patterns: &Table<Pattern>,
    matchers: &List<Matcher>,
) -> Result<LabelMap<usize>, NoMemory>
    requires { IsIndex keys.now.keys index.now }
    ensures { IfOk result (runs_spec.AreFound keys.now.keys matchers.now) }
{
    let prepared = prepared(alloc, patterns, matchers.as_slice())?;
    let numbers = candidates(alloc, keys, index, matchers.as_slice())?;
    found_among(alloc, keys, &prepared, numbers.as_slice())
}

// The same, where the numbers have all label sets on which the matchers hold.
fn found_among(
    alloc: Global,
    keys: &IndexSet<Labels>,
    prepared: &List<PreparedMatcher>,
    numbers: &[usize],
) -> Result<LabelMap<usize>, NoMemory>
    requires { runs_spec.IsComplete keys.now.keys prepared.now numbers.now }
    ensures { IfOk result (runs_spec.AreFound keys.now.keys prepared.now) }
{
    let labels = keys.as_slice();
    let read = prepared.as_slice();
    matching(alloc, labels, read, numbers)
}

// Those of the numbers on whose label sets the matchers hold.
fn matching(
    alloc: Global,
    keys: &[Labels],
    matchers: &[PreparedMatcher],
    numbers: &[usize],
) -> Result<LabelMap<usize>, NoMemory>
    ensures { IfOk result (λ found. found ≡ runs_spec.matching keys.now matchers.now numbers.now) }
{
    let mut found = LabelMap::new(alloc);
    for number in numbers {
        put_match(&mut found, keys, matchers, *number)?;
    }
    Ok(found)
}

fn put_match(
    found: &mut LabelMap<usize>,
    keys: &[Labels],
    matchers: &[PreparedMatcher],
    number: usize,
) -> Result<(), NoMemory>
    ensures { OnOk result (found.new ≡ runs_spec.with_match keys.now matchers.now found.old number) }
{
    match keys.get(number) {
        Some(labels) => put_found(found, labels, matchers, number),
        None => Ok(()),
    }
}

// Puts the number at its label set, where all matchers hold there.
fn put_found(
    found: &mut LabelMap<usize>,
    labels: &Labels,
    matchers: &[PreparedMatcher],
    number: usize,
) -> Result<(), NoMemory>
    ensures { OnOk result (found.new ≡ runs_spec.with_held matchers.now found.old labels.now number) }
{
    if all_hold(matchers, labels)? {
        found.insert(labels.copy()?, number)?;
    }
    Ok(())
}

fn all_hold(matchers: &[PreparedMatcher], labels: &Labels) -> Result<bool, NoMemory>
    ensures { IfOk result (λ holds. holds ≡ spec.all_hold matchers.now labels.now) }
{
    for matcher in matchers {
        if !matcher.holds(labels)? {
            return Ok(false);
        }
    }
    Ok(true)
}

// The matchers, each with its pattern, which is read where it isn't among those that are known.
fn prepared<'a>(
    alloc: Global,
    patterns: &'a Table<Pattern>,
    matchers: &'a [Matcher],
) -> Result<List<PreparedMatcher<'a>>, NoMemory>
    ensures { IfOk result (λ prepared. prepared ≡ matchers.now) }
{
    let mut all = List::new(alloc);
    for matcher in matchers {
        let known = patterns.get(matcher.value.as_str());
        all.push(PreparedMatcher::new(alloc, matcher, known)?)?;
    }
    Ok(all)
}

/// The newest entries of the runs that were found, without stale ones.
pub(crate) fn newest_entries(
    alloc: Global,
    runs: &[Run],
    found: LabelMap<usize>,
    from: &i128,
    to: &i128,
) -> Result<List<Entry>, NoMemory>
    ensures { IfOk result (λ entries. entries
        ≡ flat_map (runs_spec.newest_of runs.now from.now to.now) found) }
{
    let mut entries = List::new(alloc);
    for (labels, number) in found.into_entries(alloc)?.into_vec() {
        push_newest(&mut entries, runs, labels, number, from, to)?;
    }
    Ok(entries)
}

fn push_newest(
    entries: &mut List<Entry>,
    runs: &[Run],
    labels: Labels,
    number: usize,
    from: &i128,
    to: &i128,
) -> Result<(), NoMemory>
    ensures { OnOk result (entries.new
        ≡ entries.old ++ runs_spec.newest_of runs.now from.now to.now (labels, number)) }
{
    match newest_of(runs, number, from, to) {
        Some((at, value)) => push_found(entries, Entry { labels, at, value }),
        None => Ok(()),
    }
}

// The newest reading of a run.
fn newest_of(runs: &[Run], number: usize, from: &i128, to: &i128) -> Option<(Moment, Option<i64>)>
    ensures { result ≡ runs_spec.newest_in from.now to.now (runs_spec.run_at runs.now number) }
{
    match runs.get(number) {
        Some(run) => run.newest(from, to),
        None => None,
    }
}

fn push_found(entries: &mut List<Entry>, entry: Entry) -> Result<(), NoMemory>
    ensures { OnOk result (entries.new ≡ entries.old ++ spec.unless_stale entry) }
{
    if entry.value.is_some() {
        entries.push(entry)?;
    }
    Ok(())
}

/// The entries of the windows of the runs that were found.
pub(crate) fn selected_entries(
    alloc: Global,
    runs: &[Run],
    found: LabelMap<usize>,
    from: &i128,
    to: &i128,
) -> Result<List<Entry>, NoMemory>
    ensures { IfOk result (λ entries. entries
        ≡ flat_map (runs_spec.selected_of runs.now from.now to.now) found) }
{
    let mut entries = List::new(alloc);
    for (labels, number) in found.into_entries(alloc)?.into_vec() {
        push_entries(&mut entries, &labels, window_of(runs, number, from, to))?;
    }
    Ok(entries)
}

// The readings of a run from one moment to another.
fn window_of<'a>(
    runs: &'a [Run],
    number: usize,
    from: &i128,
    to: &i128,
) -> &'a [(Moment, Option<i64>)]
    ensures { result.now ≡ runs_spec.window_in from.now to.now (runs_spec.run_at runs.now number) }
{
    match runs.get(number) {
        Some(run) => run.window(from, to),
        None => &[],
    }
}

fn push_entries(
    entries: &mut List<Entry>,
    labels: &Labels,
    readings: &[(Moment, Option<i64>)],
) -> Result<(), NoMemory>
    ensures { OnOk result (entries.new ≡ entries.old ++ map (runs_spec.reading_entry labels.now) readings.now) }
{
    for reading in readings {
        entries.push(Entry {
            labels: labels.copy()?,
            at: reading.0,
            value: reading.1,
        })?;
    }
    Ok(())
}

/// The samples of the windows of the runs that were found, without runs that have none there.
pub(crate) fn ranged_series(
    alloc: Global,
    runs: &[Run],
    found: LabelMap<usize>,
    from: &i128,
    to: &i128,
) -> Result<List<(Labels, List<(Moment, i64)>)>, NoMemory>
    ensures { IfOk result (λ series. series
        ≡ flat_map (runs_spec.ranged_of runs.now from.now to.now) found) }
{
    let mut series = List::new(alloc);
    for (labels, number) in found.into_entries(alloc)?.into_vec() {
        let samples = samples_of(alloc, window_of(runs, number, from, to))?;
        push_series(&mut series, labels, samples)?;
    }
    Ok(series)
}

fn push_series(
    series: &mut List<(Labels, List<(Moment, i64)>)>,
    labels: Labels,
    samples: List<(Moment, i64)>,
) -> Result<(), NoMemory>
    ensures { OnOk result (series.new ≡ series.old ++ runs_spec.series_entry labels samples) }
{
    if !samples.is_empty() {
        series.push((labels, samples))?;
    }
    Ok(())
}

// The samples of readings, without stale ones.
fn samples_of(
    alloc: Global,
    readings: &[(Moment, Option<i64>)],
) -> Result<List<(Moment, i64)>, NoMemory>
    ensures { IfOk result (λ samples. samples ≡ runs_spec.samples_in readings.now) }
{
    let mut samples = List::new(alloc);
    for reading in readings {
        push_sample(&mut samples, reading)?;
    }
    Ok(samples)
}

fn push_sample(
    samples: &mut List<(Moment, i64)>,
    reading: &(Moment, Option<i64>),
) -> Result<(), NoMemory>
    ensures { OnOk result (samples.new ≡ samples.old ++ point_of reading.now.1 reading.now.0) }
{
    match reading.1 {
        Some(value) => samples.push((reading.0, value)),
        None => Ok(()),
    }
}
