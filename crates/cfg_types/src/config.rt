ghost use Rattle.std.specs.Prelude.{◌≡◌};
ghost use Rattle.cfg_types.specs.Jobs as spec;

use crate::job::Job;
use op_base::{List, Span, Tags, Text};
use ql_tree::Expr;

/// What one Prometheus and one Alertmanager are configured with.
#[derive(Debug, PartialEq, Eq, Drop)]
pub struct Config {
    /// None where there is no Prometheus object.
    pub prometheus: Option<PromPart>,
    /// In the order of the files' texts `NAMESPACE/NAME`.
    pub rules: List<RuleFile>,
}

impl Config {
    /// The jobs. Without a Prometheus there are none.
    pub fn jobs(&self) -> &[Job]
        ensures { result.now ≡ spec.jobs_of self.now }
    {
        match &self.prometheus {
            Some(part) => part.jobs.as_slice(),
            None => &[],
        }
    }
}

/// The global part of Prometheus, and its jobs.
#[derive(Debug, PartialEq, Eq, Drop)]
pub struct PromPart {
    pub evaluation_interval: Span,
    pub external_labels: Tags,
    pub scrape_interval: Span,
    pub scrape_timeout: Span,
    pub jobs: List<Job>,
}

/// The rule groups of one PrometheusRule object.
#[derive(Debug, PartialEq, Eq, Drop)]
pub struct RuleFile {
    pub namespace: Text,
    pub name: Text,
    pub groups: List<Group>,
}

/// Rules that run one after the other.
#[derive(Debug, PartialEq, Eq, Drop)]
pub struct Group {
    pub name: Text,
    pub rules: List<Rule>,
}

/// A recording rule: the metric name that it records, its expression and the labels that it sets.
#[derive(Debug, PartialEq, Eq, Drop)]
pub struct Rule {
    pub name: Text,
    pub expr: Expr,
    pub labels: Tags,
}
