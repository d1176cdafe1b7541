use op_base::{List, Span, Tags, Text};
use op_relabel::CheckedSteps;

/// What one job of Prometheus scrapes, and how. Each of its steps has a pattern.
#[derive(Debug, PartialEq, Eq, Drop)]
pub struct Job {
    pub honor_labels: bool,
    pub job_name: Text,
    /// The steps that each sample's labels go through.
    pub metric_relabel_configs: CheckedSteps,
    pub metrics_path: Text,
    /// The steps that each target's labels go through.
    pub relabel_configs: CheckedSteps,
    /// How many samples a scrape may leave; 0 and none set no limit.
    pub sample_limit: Option<u64>,
    pub scheme: Text,
    pub scrape_interval: Span,
    pub scrape_timeout: Span,
    pub static_configs: StaticConfig,
}

/// Targets that are given by their addresses, and the labels that all of them have.
#[derive(Debug, PartialEq, Eq, Drop)]
pub struct StaticConfig {
    pub labels: Tags,
    pub targets: List<Text>,
}
