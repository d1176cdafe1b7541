ghost use Rattle.std.specs.Prelude.{◌≡◌, ◌++◌, ◌∷◌, [], map, IfOk, OnOk};
ghost use Rattle.std.specs.List.{filter_map};
ghost use Rattle.srv_scrape.specs.Pages.{page_at};
ghost use Rattle.srv_scrape.specs.Scraped as spec;
ghost use Rattle.srv_scrape.specs.Ticks as ticks;

use crate::join::joined;
use crate::labels::has_name;
use crate::pages::{Pages, Sample};
use crate::target::Target;
use cfg_types::Job;
use op_base::{Labels, List, METRIC_NAME, Moment, NoMemory};
use op_relabel::{PreparedStep, prepare, relabel_by};
use srv_store::Entry;
use std::alloc::Global;
use std::marker::Model;

/// The entries of one scrape of a target: the samples of its page that the job's steps leave, and
/// then `up`, which is 1, or 0 alone where the scrape failed. It takes time linear in the samples,
/// but for factors that are logarithmic in the pages and for look-ups in a sample's own labels.
pub fn scrape(
    alloc: Global,
    job: &Job,
    target: &Target,
    pages: &Pages,
    t: Moment,
) -> Result<List<Entry>, NoMemory>
    ensures { IfOk result (λ entries. entries
        ≡ spec.scraped (ticks.manner_of job.now) target.now (page_at pages.now target.now.url) t) }
{
    scrape_by(alloc, &manner_of(alloc, job)?, target, pages, t)
}

/// How a job's samples are scraped: the patterns of the steps that they go through were read. Contracts see
/// the manner of the definitions, without forced labels.
#[derive(Drop)]
pub(crate) struct Manner<'a> {
    honor_labels: bool,
    steps: List<PreparedStep<'a>>,
    limit: Option<u64>,
}

impl<'a> Model for Manner<'a> {
    ghost use Rattle.std.specs.Prelude.{[]};
    ghost use Rattle.srv_scrape.specs.Scraped.{Manner as Seen};

    ghost Value = { Seen };

    ghost view = { λ manner. record {
      honor = manner.honor_labels;
      steps = manner.steps;
      limit = manner.limit;
      force = [];
    } };
}

pub(crate) fn manner_of<'a>(alloc: Global, job: &'a Job) -> Result<Manner<'a>, NoMemory>
    ensures { IfOk result (λ manner. manner ≡ ticks.manner_of job.now) }
{
    Ok(Manner {
        honor_labels: job.honor_labels,
        steps: prepare(alloc, &job.metric_relabel_configs)?,
        limit: job.sample_limit,
    })
}

/// The same as `scrape`, for many targets of one job.
pub(crate) fn scrape_by(
    alloc: Global,
    manner: &Manner,
    target: &Target,
    pages: &Pages,
    t: Moment,
) -> Result<List<Entry>, NoMemory>
    ensures { IfOk result (λ entries. entries
        ≡ spec.scraped manner.now target.now (page_at pages.now target.now.url) t) }
{
    match pages.get(target.url.as_str()) {
        Some(samples) => {
            let left = all_left(alloc, manner, target, samples.as_slice())?;
            entries_of(alloc, manner.limit, target, t, left)
        }
        None => failed_scrape(alloc, target, t),
    }
}

// What the job's steps leave of the samples.
fn all_left(
    alloc: Global,
    manner: &Manner,
    target: &Target,
    samples: &[Sample],
) -> Result<List<Sample>, NoMemory>
    ensures { IfOk result (λ left. left ≡ spec.all_left manner.now target.now samples.now) }
{
    let mut left = List::new(alloc);
    for sample in samples {
        push_left(alloc, &mut left, manner, target, sample)?;
    }
    Ok(left)
}

fn push_left(
    alloc: Global,
    left: &mut List<Sample>,
    manner: &Manner,
    target: &Target,
    sample: &Sample,
) -> Result<(), NoMemory>
    ensures { OnOk result (left.new
        ≡ left.old ++ filter_map (spec.left_of manner.now target.now) (sample.now ∷ [])) }
{
    match left_of(alloc, manner, target, sample)? {
        Some(sample) => left.push(sample),
        None => Ok(()),
    }
}

fn left_of(
    alloc: Global,
    manner: &Manner,
    target: &Target,
    sample: &Sample,
) -> Result<Option<Sample>, NoMemory>
    ensures { IfOk result (λ left. left ≡ spec.left_of manner.now target.now sample.now) }
{
    let labels = joined(alloc, manner.honor_labels, &target.labels, &sample.labels)?;
    match relabel_by(alloc, &manner.steps, &labels)? {
        Some(labels) => Ok(left_with(labels, sample.value)),
        None => Ok(None),
    }
}

// A sample without any label counts as dropped.
fn left_with(labels: Labels, value: i64) -> Option<Sample>
    ensures { result ≡ spec.left_with value labels }
{
    if labels.len() == 0 {
        None
    } else {
        Some(Sample { labels, value })
    }
}

// The entries of the samples, and then `up`. Where a sample has no name or there are more than the limit,
// the scrape fails.
fn entries_of(
    alloc: Global,
    limit: Option<u64>,
    target: &Target,
    t: Moment,
    samples: List<Sample>,
) -> Result<List<Entry>, NoMemory>
    ensures { IfOk result (λ entries. entries ≡ spec.entries_of limit target.now t samples) }
{
    if !(all_named(samples.as_slice()) && is_within(limit, samples.as_slice())) {
        return failed_scrape(alloc, target, t);
    }
    let mut entries = List::new(alloc);
    push_entries(&mut entries, t, samples)?;
    entries.push(up_entry(target, t, 1)?)?;
    Ok(entries)
}

fn all_named(samples: &[Sample]) -> bool
    ensures { result ≡ spec.all_named samples.now }
{
    samples
        .iter()
        .all(|sample| has_name(&sample.labels, METRIC_NAME))
}

// There are no more than a limit above 0.
fn is_within(limit: Option<u64>, samples: &[Sample]) -> bool
    ensures { result ≡ spec.is_within limit samples.now }
{
    match limit {
        Some(limit) => limit == 0 || samples.len() as u64 <= limit,
        None => true,
    }
}

fn push_entries(entries: &mut List<Entry>, t: Moment, samples: List<Sample>) -> Result<(), NoMemory>
    ensures { OnOk result (entries.new ≡ entries.old ++ map (spec.entry_of t) samples) }
{
    for sample in samples.into_vec() {
        entries.push(entry_of(t, sample))?;
    }
    Ok(())
}

fn entry_of(t: Moment, sample: Sample) -> Entry
    ensures { result ≡ spec.entry_of t sample }
{
    Entry {
        labels: sample.labels,
        at: t,
        value: Some(sample.value),
    }
}

fn failed_scrape(alloc: Global, target: &Target, t: Moment) -> Result<List<Entry>, NoMemory>
    ensures { IfOk result (λ entries. entries ≡ spec.failed_scrape target.now t) }
{
    let mut entries = List::new(alloc);
    entries.push(up_entry(target, t, 0)?)?;
    Ok(entries)
}

fn up_entry(target: &Target, t: Moment, value: i64) -> Result<Entry, NoMemory>
    ensures { IfOk result (λ entry. entry ≡ spec.up_entry target.now t value) }
{
    let mut labels = target.labels.copy()?;
    labels.set(METRIC_NAME, "up")?;
    Ok(Entry {
        labels,
        at: t,
        value: Some(value),
    })
}
