ghost use Rattle.std.specs.Prelude.{◌≡◌, ◌∷◌, [], map, IfOk, OnOk};
ghost use Rattle.op_base.specs.Maps.{with_entry};
ghost use Rattle.cfg_types.specs.Written.{HasSpans, file_text as text_of};
ghost use Rattle.std.specs.List.{filter_map};
ghost use Rattle.ql_tree.specs.Enforced.{enforced};
ghost use Rattle.op_thin.specs.Compiled as spec;
ghost use Rattle.op_thin.specs.CompiledPatterns.{RulesHavePatterns};
ghost use Rattle.op_thin.specs.FileOrder.{files_by_text as files_by_text_of};
ghost use Rattle.op_thin.specs.ThinProbes.{job_name as job_name_of};

use crate::objects::Objects;
use crate::probe::ThinProbe;
use crate::recording::{Recording, recording_of};
use crate::rule::ThinRule;
use cfg_types::{Config, Group, Job, PromPart, Rule, RuleFile, StaticConfig, file_text};
use op_base::{List, NAMESPACE_LABEL, NoMemory, Span, Table, Tags, Text};
use op_relabel::CheckedSteps;
use ql_rewrite::{EnforceFault, enforce};
use ql_tree::Expr;
use std::alloc::Global;

// The settings that stand: the time between scrapes and between rounds.
const INTERVAL: Span = Span(30_000);

// How long a scrape may take.
const TIMEOUT: Span = Span(10_000);

/// The configuration of the objects present.
pub fn compile(alloc: Global, objects: Objects) -> Result<Config, NoMemory>
    ensures config { IfOk result (λ config. config ≡ spec.config_of objects) }
    ensures spans { IfOk result HasSpans }
    ensures rules { IfOk result RulesHavePatterns }
{
    let (rules, probes) = objects.into_all(alloc)?;
    let prometheus = prometheus_of(alloc, probes)?;
    let files = files_by_text(alloc, recordings(alloc, rules)?)?;
    Ok(Config {
        prometheus: Some(prometheus),
        rules: files.into_values(alloc)?,
    })
}

fn prometheus_of(alloc: Global, probes: List<ThinProbe>) -> Result<PromPart, NoMemory>
    ensures { IfOk result (λ part. part ≡ spec.prometheus_of probes) }
{
    Ok(PromPart {
        evaluation_interval: INTERVAL,
        external_labels: Tags::new(alloc),
        scrape_interval: INTERVAL,
        scrape_timeout: TIMEOUT,
        jobs: jobs_of(alloc, probes)?,
    })
}

fn jobs_of(alloc: Global, probes: List<ThinProbe>) -> Result<List<Job>, NoMemory>
    ensures { IfOk result (λ jobs. jobs ≡ map spec.job_of probes) }
{
    let mut jobs = List::new(alloc);
    for probe in probes.into_vec() {
        jobs.push(job_of(alloc, probe)?)?;
    }
    Ok(jobs)
}

fn job_of(alloc: Global, probe: ThinProbe) -> Result<Job, NoMemory>
    ensures { IfOk result (λ job. job ≡ spec.job_of probe) }
{
    probe_job(alloc, &probe)
}

fn probe_job(alloc: Global, probe: &ThinProbe) -> Result<Job, NoMemory>
    ensures { IfOk result (λ job. job ≡ spec.job_of probe.now) }
{
    Ok(Job {
        honor_labels: false,
        job_name: job_name(alloc, probe)?,
        metric_relabel_configs: sample_steps(alloc, probe)?,
        metrics_path: Text::from_str(alloc, "/probe")?,
        relabel_configs: probe_steps(alloc, probe)?,
        sample_limit: None,
        scheme: Text::from_str(alloc, "http")?,
        scrape_interval: INTERVAL,
        scrape_timeout: TIMEOUT,
        static_configs: static_config(alloc, probe)?,
    })
}

fn static_config(alloc: Global, probe: &ThinProbe) -> Result<StaticConfig, NoMemory>
    ensures { IfOk result (λ config. config ≡ record {
      labels = (NAMESPACE_LABEL.now, probe.now.namespace) ∷ [];
      targets = probe.now.target ∷ [];
    }) }
{
    Ok(StaticConfig {
        labels: enforced_labels(alloc, &probe.namespace)?,
        targets: list_of(alloc, probe.target.clone()?)?,
    })
}

fn job_name(alloc: Global, probe: &ThinProbe) -> Result<Text, NoMemory>
    ensures { IfOk result (λ name. name ≡ job_name_of probe.now) }
{
    let mut name = Text::from_str(alloc, "probe/")?;
    name.push_str(probe.namespace.as_str())?;
    name.push_str("/")?;
    name.push_str(probe.name.as_str())?;
    Ok(name)
}

fn sample_steps(alloc: Global, probe: &ThinProbe) -> Result<CheckedSteps, NoMemory>
    ensures { IfOk result (λ steps. steps ≡ spec.enforced_step probe.now.namespace ∷ []) }
{
    let mut steps = CheckedSteps::new(alloc);
    steps.put_value(alloc, NAMESPACE_LABEL, probe.namespace.as_str())?;
    Ok(steps)
}

fn probe_steps(alloc: Global, probe: &ThinProbe) -> Result<CheckedSteps, NoMemory>
    ensures { IfOk result (λ steps. steps ≡ spec.probe_steps probe.now) }
{
    let mut steps = CheckedSteps::new(alloc);
    steps.copy_label(alloc, "__address__", "__param_target")?;
    steps.copy_label(alloc, "__param_target", "instance")?;
    steps.put_value(alloc, "__address__", probe.url.as_str())?;
    steps.put_value(alloc, NAMESPACE_LABEL, probe.namespace.as_str())?;
    Ok(steps)
}

// The rules whose expressions are taken.
fn recordings(alloc: Global, rules: List<ThinRule>) -> Result<List<Recording>, NoMemory>
    ensures { IfOk result (λ taken. taken ≡ filter_map spec.recording_of rules) }
{
    let mut taken = List::new(alloc);
    for rule in rules.into_vec() {
        if let Some(recording) = recording_of(rule) {
            taken.push(recording)?;
        }
    }
    Ok(taken)
}

fn files_by_text(alloc: Global, rules: List<Recording>) -> Result<Table<RuleFile>, NoMemory>
    ensures { IfOk result (λ files. files ≡ files_by_text_of (map spec.file_of rules)) }
{
    let mut files = Table::new(alloc);
    for rule in rules.into_vec() {
        place(alloc, &mut files, rule)?;
    }
    Ok(files)
}

fn place(alloc: Global, files: &mut Table<RuleFile>, rule: Recording) -> Result<(), NoMemory>
    ensures { OnOk result (files.new ≡ with_entry files.old (text_of (spec.file_of rule)) (spec.file_of rule)) }
{
    let file = file_from(alloc, rule)?;
    let text = file_text(&file)?;
    files.insert(text, file)
}

fn file_from(alloc: Global, rule: Recording) -> Result<RuleFile, NoMemory>
    ensures { IfOk result (λ file. file ≡ spec.file_of rule) }
{
    rule_file(alloc, &rule)
}

fn rule_file(alloc: Global, rule: &Recording) -> Result<RuleFile, NoMemory>
    ensures { IfOk result (λ file. file ≡ spec.file_of rule.now) }
{
    Ok(RuleFile {
        namespace: rule.namespace.clone()?,
        name: rule.name.clone()?,
        groups: list_of(alloc, rule_group(alloc, rule)?)?,
    })
}

fn rule_group(alloc: Global, rule: &Recording) -> Result<Group, NoMemory>
    ensures { IfOk result (λ group. group ≡ spec.group_of rule.now) }
{
    Ok(Group {
        name: rule.group.clone()?,
        rules: list_of(alloc, config_rule(alloc, rule)?)?,
    })
}

fn config_rule(alloc: Global, rule: &Recording) -> Result<Rule, NoMemory>
    ensures { IfOk result (λ made. made ≡ spec.config_rule rule.now) }
{
    Ok(Rule {
        name: rule.record_name.clone()?,
        labels: enforced_labels(alloc, &rule.namespace)?,
        expr: enforced_expr(alloc, &rule.tree, &rule.namespace)?,
    })
}

fn enforced_expr(alloc: Global, tree: &Expr, namespace: &Text) -> Result<Expr, NoMemory>
    ensures { IfOk result (λ expr. expr ≡ enforced NAMESPACE_LABEL.now namespace.now tree.now) }
{
    match enforce(alloc, tree, NAMESPACE_LABEL, namespace.as_str(), false) {
        Ok(expr) => Ok(expr),
        Err(EnforceFault::NoMemory) => Err(NoMemory),
        Err(EnforceFault::Conflict(_)) => unreachable!(),
    }
}

fn enforced_labels(alloc: Global, namespace: &Text) -> Result<Tags, NoMemory>
    ensures { IfOk result (λ labels. labels ≡ (NAMESPACE_LABEL.now, namespace.now) ∷ []) }
{
    let mut labels = Tags::new(alloc);
    labels.set(NAMESPACE_LABEL, namespace.as_str())?;
    Ok(labels)
}

fn list_of<T: Drop>(alloc: Global, item: T) -> Result<List<T>, NoMemory>
    ensures { IfOk result (λ items. items ≡ item ∷ []) }
{
    let mut items = List::new(alloc);
    items.push(item)?;
    Ok(items)
}
