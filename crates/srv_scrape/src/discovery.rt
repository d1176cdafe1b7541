ghost use Rattle.std.specs.Prelude.{◌≡◌, ◌++◌, ◌∷◌, [], filter, IfOk, OnOk};
ghost use Rattle.std.specs.List.{filter_map};
ghost use Rattle.op_base.specs.Labels.{labels_with_all};
ghost use Rattle.srv_scrape.specs.Targets as spec;

use crate::labels::{has_name, put_default};
use crate::target::Target;
use crate::url::url_of;
use cfg_types::Job;
use op_base::{Labels, List, NoMemory, Text};
use op_relabel::{PreparedStep, prepare, relabel_by};
use std::alloc::Global;

/// The targets of a job, in the order of its static ones. An address that the job's steps drop, or
/// that has no label `__address__` after them, gives none.
pub fn targets(alloc: Global, job: &Job) -> Result<List<Target>, NoMemory>
    ensures { IfOk result (λ targets. targets ≡ spec.job_targets job.now) }
{
    let steps = prepare(alloc, &job.relabel_configs)?;
    let mut targets = List::new(alloc);
    for address in job.static_configs.targets.as_slice() {
        push_target(alloc, &mut targets, job, &steps, address.as_str())?;
    }
    Ok(targets)
}

fn push_target(
    alloc: Global,
    targets: &mut List<Target>,
    job: &Job,
    steps: &List<PreparedStep>,
    address: &str,
) -> Result<(), NoMemory>
    requires { steps.now ≡ job.now.relabel_configs }
    ensures { OnOk result (targets.new
        ≡ targets.old ++ filter_map (spec.target_at job.now) (address.now ∷ [])) }
{
    match target_at(alloc, job, steps, address)? {
        Some(target) => targets.push(target),
        None => Ok(()),
    }
}

fn target_at(
    alloc: Global,
    job: &Job,
    steps: &List<PreparedStep>,
    address: &str,
) -> Result<Option<Target>, NoMemory>
    requires { steps.now ≡ job.now.relabel_configs }
    ensures { IfOk result (λ target. target ≡ spec.target_at job.now address.now) }
{
    let labels = discovered(alloc, job, address)?;
    match relabel_by(alloc, steps, &labels)? {
        Some(labels) => target_from(alloc, labels),
        None => Ok(None),
    }
}

// The labels of a static target before the job's steps.
fn discovered(alloc: Global, job: &Job, address: &str) -> Result<Labels, NoMemory>
    ensures { IfOk result (λ labels. labels ≡ spec.discovered job.now address.now) }
{
    let mut labels = Labels::new(alloc);
    labels.set_all(&job.static_configs.labels)?;
    put_address(&mut labels, address)?;
    put_job(&mut labels, job)?;
    Ok(labels)
}

fn put_address(labels: &mut Labels, address: &str) -> Result<(), NoMemory>
    ensures { OnOk result (labels.new ≡ spec.with_address address.now labels.old) }
{
    labels.remove("__address__");
    labels.set("__address__", address)
}

fn put_job(labels: &mut Labels, job: &Job) -> Result<(), NoMemory>
    ensures { OnOk result (labels.new ≡ spec.with_job job.now labels.old) }
{
    put_default(labels, "job", job.job_name.as_str())?;
    put_default(labels, "__scheme__", job.scheme.as_str())?;
    put_default(labels, "__metrics_path__", job.metrics_path.as_str())
}

fn target_from(alloc: Global, labels: Labels) -> Result<Option<Target>, NoMemory>
    ensures { IfOk result (λ target. target ≡ spec.target_from labels) }
{
    if !has_name(&labels, "__address__") {
        return Ok(None);
    }
    let url = url_of(alloc, &labels)?;
    let labels = target_labels(alloc, labels)?;
    Ok(Some(Target { labels, url }))
}

fn target_labels(alloc: Global, labels: Labels) -> Result<Labels, NoMemory>
    ensures { IfOk result (λ own. own ≡ spec.target_labels labels) }
{
    let mut labels = labels;
    let address = Text::from_str(alloc, labels.value("__address__"))?;
    put_default(&mut labels, "instance", address.as_str())?;
    own_labels(alloc, &labels)
}

// The labels whose names don't begin with `__`.
fn own_labels(alloc: Global, labels: &Labels) -> Result<Labels, NoMemory>
    ensures { IfOk result (λ own. own ≡ filter spec.is_kept labels.now) }
{
    let mut own = Labels::new(alloc);
    for place in 0..labels.len() {
        put_if_own(&mut own, labels.name_at(place), labels.value_at(place))?;
    }
    Ok(own)
}

fn put_if_own(own: &mut Labels, name: &str, value: &str) -> Result<(), NoMemory>
    ensures { OnOk result (own.new
        ≡ labels_with_all own.old (filter spec.is_kept ((name.now, value.now) ∷ []))) }
{
    if name.as_bytes().starts_with(b"__") {
        return Ok(());
    }
    own.set(name, value)
}
