ghost use Rattle.std.specs.Prelude.{◌≡◌, ◌++◌, true, IfOk, IfSome, OnOk};
ghost use Rattle.std.specs.Option.{option_copied};
ghost use Rattle.op_base.specs.Names.{is_label_name};
ghost use Rattle.cfg_types.specs.Jobs.{HasJobSpans};
ghost use Rattle.gen_scrape.specs.InForce.{HasGivenSpans};
ghost use Rattle.gen_scrape.specs.ProbeJobs as spec;

use crate::dollars::doubled_dollars;
use crate::in_force::{interval_in_force, limit_in_force, timeout_in_force};
use crate::steps::{copy_texts, push_own};
use cfg_types::{Job, StaticConfig};
use kind_admin::PrometheusSpec;
use kind_scrape::{ProbeObject, ProbeSpec, Scheme};
use op_base::{Key, List, NAMESPACE_LABEL, NoMemory, Tags, Text};
use op_relabel::{CheckedSteps, Step};
use std::alloc::Global;

/// The job of a Probe. `enforced` is the name of the label that is enforced upon the object, where one is; its value is
/// the object's namespace. Where `regex` finds the pattern of a step too large, the answer is `NoMemory` too. The
/// `module` of the prober has no place in a job yet, and credentials haven't either.
pub fn probe_job(
    alloc: Global,
    prometheus: &PrometheusSpec,
    enforced: Option<&str>,
    probe: &ProbeObject,
) -> Result<Job, NoMemory>
    requires label { IfSome (option_copied enforced) (λ label. is_label_name label ≡ true) }
    requires steps { spec.StepsPass probe.now.spec }
    ensures job { IfOk result (λ job. job ≡ spec.probe_job_of prometheus.now (option_copied enforced.entry) probe.now) }
    ensures spans { HasGivenSpans prometheus.now probe.now.spec.timing → IfOk result HasJobSpans }
{
    let asked = &probe.spec;
    Ok(Job {
        honor_labels: false,
        job_name: job_name(alloc, &probe.key)?,
        metric_relabel_configs: sample_steps(alloc, enforced, probe)?,
        metrics_path: asked.prober.path.clone()?,
        relabel_configs: target_steps(alloc, enforced, probe)?,
        sample_limit: limit_in_force(prometheus, asked.sample_limit),
        scheme: Text::from_str(alloc, scheme_text(asked.prober.scheme))?,
        scrape_interval: interval_in_force(prometheus, asked.timing),
        scrape_timeout: timeout_in_force(prometheus, asked.timing),
        static_configs: static_of(alloc, probe)?,
    })
}

fn job_name(alloc: Global, key: &Key) -> Result<Text, NoMemory>
    ensures { IfOk result (λ name. name ≡ spec.job_name key.now) }
{
    let mut name = Text::from_str(alloc, "probe/")?;
    name.push_str(key.namespace.as_str())?;
    name.push_str("/")?;
    name.push_str(key.name.as_str())?;
    Ok(name)
}

fn scheme_text(scheme: Scheme) -> &'static str
    ensures { result.now ≡ spec.scheme_text scheme }
{
    match scheme {
        Scheme::Http => "http",
        Scheme::Https => "https",
    }
}

fn sample_steps(
    alloc: Global,
    enforced: Option<&str>,
    probe: &ProbeObject,
) -> Result<CheckedSteps, NoMemory>
    requires label { IfSome (option_copied enforced) (λ label. is_label_name label ≡ true) }
    requires steps { spec.StepsPass probe.now.spec }
    ensures { IfOk result (λ steps. steps ≡ spec.sample_steps (option_copied enforced.entry) probe.now) }
{
    let mut steps = CheckedSteps::new(alloc);
    let own = probe.spec.metric_relabelings.as_slice();
    push_own(
        alloc,
        &mut steps,
        own,
        enforced,
        probe.key.namespace.as_str(),
    )?;
    Ok(steps)
}

fn target_steps(
    alloc: Global,
    enforced: Option<&str>,
    probe: &ProbeObject,
) -> Result<CheckedSteps, NoMemory>
    requires label { IfSome (option_copied enforced) (λ label. is_label_name label ≡ true) }
    requires steps { spec.StepsPass probe.now.spec }
    ensures { IfOk result (λ steps. steps ≡ spec.target_steps (option_copied enforced.entry) probe.now) }
{
    let mut steps = prober_steps(alloc, &probe.spec)?;
    push_job(alloc, &mut steps, &probe.spec.job_name)?;
    let own = relabelings_in(&probe.spec);
    push_own(
        alloc,
        &mut steps,
        own,
        enforced,
        probe.key.namespace.as_str(),
    )?;
    Ok(steps)
}

fn prober_steps(alloc: Global, asked: &ProbeSpec) -> Result<CheckedSteps, NoMemory>
    ensures { IfOk result (λ steps. steps ≡ spec.prober_steps asked.now) }
{
    let url = doubled_dollars(alloc, asked.prober.url.as_str())?;
    let mut steps = CheckedSteps::new(alloc);
    steps.copy_label(alloc, "__address__", "__param_target")?;
    steps.copy_label(alloc, "__param_target", "instance")?;
    steps.put_value(alloc, "__address__", url.as_str())?;
    Ok(steps)
}

fn push_job(alloc: Global, steps: &mut CheckedSteps, name: &Option<Text>) -> Result<(), NoMemory>
    ensures { OnOk result (steps.new ≡ steps.old ++ spec.job_steps name.now) }
{
    match name {
        Some(name) => {
            let name = doubled_dollars(alloc, name.as_str())?;
            steps.put_value(alloc, "job", name.as_str())
        }
        None => Ok(()),
    }
}

fn static_of(alloc: Global, probe: &ProbeObject) -> Result<StaticConfig, NoMemory>
    ensures { IfOk result (λ config. config ≡ spec.static_of probe.now) }
{
    let labels = labels_in(alloc, &probe.spec)?;
    Ok(StaticConfig {
        labels: with_namespace(labels, probe.key.namespace.as_str())?,
        targets: copy_texts(alloc, addresses_in(&probe.spec))?,
    })
}

fn with_namespace(labels: Tags, namespace: &str) -> Result<Tags, NoMemory>
    ensures { IfOk result (λ labels_then. labels_then ≡ spec.with_namespace namespace.now labels) }
{
    let mut labels = labels;
    if labels.get(NAMESPACE_LABEL).is_none() {
        labels.set(NAMESPACE_LABEL, namespace)?;
    }
    Ok(labels)
}

fn static_in(asked: &ProbeSpec) -> Option<&kind_scrape::StaticConfig>
    ensures { option_copied result ≡ spec.static_in asked.now }
{
    match &asked.targets {
        Some(targets) => targets.static_config.as_ref(),
        None => None,
    }
}

fn addresses_in(asked: &ProbeSpec) -> &[Text]
    ensures { result.now ≡ spec.addresses_in asked.now }
{
    match static_in(asked) {
        Some(config) => config.addresses.as_slice(),
        None => &[],
    }
}

fn relabelings_in(asked: &ProbeSpec) -> &[Step]
    ensures { result.now ≡ spec.relabelings_in asked.now }
{
    match static_in(asked) {
        Some(config) => config.relabeling_configs.as_slice(),
        None => &[],
    }
}

fn labels_in(alloc: Global, asked: &ProbeSpec) -> Result<Tags, NoMemory>
    ensures { IfOk result (λ labels. labels ≡ spec.labels_in asked.now) }
{
    match static_in(asked) {
        Some(config) => config.labels.copy(),
        None => Ok(Tags::new(alloc)),
    }
}
