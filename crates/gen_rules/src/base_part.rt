ghost use Rattle.std.specs.Prelude.{◌≡◌, IfOk, IfSome};
ghost use Rattle.cfg_types.specs.Written.{HasPartSpans};
ghost use Rattle.gen_rules.specs.Base as spec;

use cfg_types::PromPart;
use kind_admin::{PrometheusSpec, Settings};
use op_base::{List, NoMemory};
use std::alloc::Global;

/// What the settings alone give: the Prometheus part without jobs, or none without a Prometheus object.
pub fn base(alloc: Global, settings: &Settings) -> Result<Option<PromPart>, NoMemory>
    ensures part { IfOk result (λ part. part ≡ spec.base_of settings.now) }
    ensures spans { IfSome settings.now.prometheus spec.HasSettingSpans → IfOk result (λ part. IfSome part HasPartSpans) }
{
    match &settings.prometheus {
        Some(prometheus) => Ok(Some(part_of(alloc, prometheus)?)),
        None => Ok(None),
    }
}

fn part_of(alloc: Global, prometheus: &PrometheusSpec) -> Result<PromPart, NoMemory>
    ensures part { IfOk result (λ part. part ≡ spec.part_of prometheus.now) }
    ensures spans { spec.HasSettingSpans prometheus.now → IfOk result HasPartSpans }
{
    Ok(PromPart {
        evaluation_interval: prometheus.evaluation_interval,
        external_labels: prometheus.external_labels.copy()?,
        scrape_interval: prometheus.scrape_interval,
        scrape_timeout: prometheus.scrape_timeout,
        jobs: List::new(alloc),
    })
}
