/// The label that holds a metric's name.
pub const METRIC_NAME: &str = "__name__";

/// The label that names the namespace that an entry belongs to. It keeps tenants apart.
pub const NAMESPACE_LABEL: &str = "namespace";
