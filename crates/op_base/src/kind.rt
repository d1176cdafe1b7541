ghost use Rattle.std.specs.Prelude.{◌≡◌};
ghost use Rattle.op_base.specs.Keys.{kind_name};

/// The kinds of objects that are read, in the order that keys follow. The first five are compiled.
#[derive(Clone, Copy, Debug, PartialEq, Eq, PartialOrd, Ord)]
pub enum Kind {
    ServiceMonitor,
    PodMonitor,
    Probe,
    PrometheusRule,
    AlertmanagerConfig,
    Secret,
    Namespace,
    Prometheus,
    Alertmanager,
}

impl Kind {
    /// The name that manifests and report lines spell.
    pub fn name(self) -> &'static str
        ensures { result.now ≡ kind_name self }
    {
        match self {
            Kind::ServiceMonitor => "ServiceMonitor",
            Kind::PodMonitor => "PodMonitor",
            Kind::Probe => "Probe",
            Kind::PrometheusRule => "PrometheusRule",
            Kind::AlertmanagerConfig => "AlertmanagerConfig",
            Kind::Secret => "Secret",
            Kind::Namespace => "Namespace",
            Kind::Prometheus => "Prometheus",
            Kind::Alertmanager => "Alertmanager",
        }
    }
}
