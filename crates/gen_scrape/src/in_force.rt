// What is in force for the scrapes of an object.
ghost use Rattle.std.specs.Prelude.{◌≡◌};
ghost use Rattle.gen_scrape.specs.InForce as spec;

use kind_admin::PrometheusSpec;
use kind_scrape::Timing;
use op_base::Span;

/// How often is scraped.
pub(crate) fn interval_in_force(prometheus: &PrometheusSpec, timing: Timing) -> Span
    ensures { result ≡ spec.interval_in_force prometheus.now timing }
{
    timing.interval.unwrap_or(prometheus.scrape_interval)
}

/// How long a scrape may take.
pub(crate) fn timeout_in_force(prometheus: &PrometheusSpec, timing: Timing) -> Span
    ensures { result ≡ spec.timeout_in_force prometheus.now timing }
{
    match timing.scrape_timeout {
        Some(timeout) => timeout,
        None => shorter(
            prometheus.scrape_timeout,
            interval_in_force(prometheus, timing),
        ),
    }
}

fn shorter(one: Span, other: Span) -> Span
    ensures { result ≡ spec.shorter one other }
{
    if one.0 <= other.0 { one } else { other }
}

/// How many samples a scrape may leave.
pub(crate) fn limit_in_force(prometheus: &PrometheusSpec, own: Option<u64>) -> Option<u64>
    ensures { result ≡ spec.limit_in_force prometheus.now own }
{
    smaller(set_limit(own), set_limit(prometheus.enforced_sample_limit))
}

fn set_limit(limit: Option<u64>) -> Option<u64>
    ensures { result ≡ spec.set_limit limit }
{
    match limit {
        Some(0) => None,
        _ => limit,
    }
}

fn smaller(one: Option<u64>, other: Option<u64>) -> Option<u64>
    ensures { result ≡ spec.smaller one other }
{
    match (one, other) {
        (Some(one), Some(other)) => Some(one.min(other)),
        (Some(one), None) => Some(one),
        (None, other) => other,
    }
}
