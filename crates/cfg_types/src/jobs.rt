ghost use Rattle.std.specs.Prelude.{◌≡◌, ◌∷◌, [], pos, map, IfOk, OnOk};
ghost use Rattle.std.specs.List.{AllByRecursion};
ghost use Rattle.serde_json.specs.Data.{put};
ghost use Rattle.serde_json.specs.View as shown;
ghost use Rattle.op_json.specs.Json.{whole, data_of, array_of, members_after, fields_of};
ghost use Rattle.cfg_types.specs.Jobs as spec;

use crate::job::{Job, StaticConfig};
use crate::steps::put_steps;
use crate::texts::{list_array, put_labels, put_span};
use op_base::{List, NoMemory};
use op_json::{push_item, put_field, put_text};
use serde_json::{Map, Value};
use std::alloc::Global;

pub(crate) fn jobs_array(alloc: Global, jobs: &List<Job>) -> Result<Value, NoMemory>
    requires { AllByRecursion spec.HasJobSpans jobs.now }
    ensures { IfOk result (λ value. shown.view value ≡ data_of (array_of (map spec.job_json jobs.now))) }
{
    Ok(Value::Array(job_values(alloc, jobs.as_slice())?))
}

fn job_values(alloc: Global, jobs: &[Job]) -> Result<Vec<Value>, NoMemory>
    requires { AllByRecursion spec.HasJobSpans jobs.now }
    ensures { IfOk result (λ values. map shown.view values.items
        ≡ map (λ job. data_of (spec.job_json job)) jobs.now) }
{
    let mut values = Vec::new(alloc);
    for job in jobs {
        push_item(&mut values, job_value(alloc, job)?)?;
    }
    Ok(values)
}

fn job_value(alloc: Global, job: &Job) -> Result<Value, NoMemory>
    requires { spec.HasJobSpans job.now }
    ensures { IfOk result (λ value. shown.view value ≡ data_of (spec.job_json job.now)) }
{
    let mut fields = Map::new(alloc);
    put_names(&mut fields, alloc, job)?;
    put_steps(
        &mut fields,
        alloc,
        "metric_relabel_configs",
        &job.metric_relabel_configs,
    )?;
    put_text(
        &mut fields,
        alloc,
        "metrics_path",
        job.metrics_path.as_str(),
    )?;
    put_steps(&mut fields, alloc, "relabel_configs", &job.relabel_configs)?;
    put_rest(&mut fields, alloc, job)?;
    Ok(Value::Object(fields))
}

fn put_names(fields: &mut Map<String, Value>, alloc: Global, job: &Job) -> Result<(), NoMemory>
    ensures { OnOk result (shown.members_view fields.new.entries
        ≡ members_after (shown.members_view fields.old.entries) (fields_of (spec.name_fields job.now))) }
{
    put_field(fields, alloc, "honor_labels", Value::Bool(job.honor_labels))?;
    put_text(fields, alloc, "job_name", job.job_name.as_str())
}

// Puts the sample limit and what stands behind it.
#[tactic(auto, using(op_json::proofs::Fields::after_append))]
fn put_rest(fields: &mut Map<String, Value>, alloc: Global, job: &Job) -> Result<(), NoMemory>
    requires { spec.HasJobSpans job.now }
    ensures { OnOk result (shown.members_view fields.new.entries
        ≡ members_after (shown.members_view fields.old.entries) (fields_of (spec.rest_fields job.now))) }
{
    put_limit(fields, alloc, job.sample_limit)?;
    put_scrape(fields, alloc, job)
}

fn put_scrape(fields: &mut Map<String, Value>, alloc: Global, job: &Job) -> Result<(), NoMemory>
    requires { spec.HasJobSpans job.now }
    ensures { OnOk result (shown.members_view fields.new.entries
        ≡ members_after (shown.members_view fields.old.entries) (fields_of (spec.scrape_fields job.now))) }
{
    let targets = static_array(alloc, &job.static_configs)?;
    put_text(fields, alloc, "scheme", job.scheme.as_str())?;
    put_span(fields, alloc, "scrape_interval", job.scrape_interval)?;
    put_span(fields, alloc, "scrape_timeout", job.scrape_timeout)?;
    put_field(fields, alloc, "static_configs", targets)
}

// Puts the sample limit as a field, where there is one.
fn put_limit(
    fields: &mut Map<String, Value>,
    alloc: Global,
    limit: Option<u64>,
) -> Result<(), NoMemory>
    ensures { OnOk result (shown.members_view fields.new.entries
        ≡ members_after (shown.members_view fields.old.entries) (fields_of (spec.limit_field limit))) }
{
    match limit {
        Some(limit) => put_number(fields, alloc, "sample_limit", limit),
        None => Ok(()),
    }
}

fn put_number(
    fields: &mut Map<String, Value>,
    alloc: Global,
    name: &str,
    number: u64,
) -> Result<(), NoMemory>
    ensures { OnOk result (shown.members_view fields.new.entries
        ≡ put name.now (data_of (whole (pos number))) (shown.members_view fields.old.entries)) }
{
    put_field(fields, alloc, name, Value::from(number))
}

fn static_array(alloc: Global, config: &StaticConfig) -> Result<Value, NoMemory>
    ensures { IfOk result (λ value. shown.view value
        ≡ data_of (array_of (spec.static_json config.now ∷ []))) }
{
    let value = static_value(alloc, config)?;
    let mut values = Vec::new(alloc);
    push_item(&mut values, value)?;
    Ok(Value::Array(values))
}

fn static_value(alloc: Global, config: &StaticConfig) -> Result<Value, NoMemory>
    ensures { IfOk result (λ value. shown.view value ≡ data_of (spec.static_json config.now)) }
{
    let targets = list_array(alloc, &config.targets)?;
    let mut fields = Map::new(alloc);
    put_labels(&mut fields, alloc, &config.labels)?;
    put_field(&mut fields, alloc, "targets", targets)?;
    Ok(Value::Object(fields))
}
