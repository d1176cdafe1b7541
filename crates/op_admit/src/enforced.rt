ghost use Rattle.std.specs.Prelude.{◌≡◌, true, bytes_eq, option_map};
ghost use Rattle.std.specs.Option.{option_map_or};
ghost use Rattle.std.specs.List.{list_any};
ghost use Rattle.op_admit.specs.EnforcedLabels as spec;

use crate::object::Object;
use kind_admin::{Exclusion, PrometheusSpec, Settings};
use op_base::Key;

/// The label that is enforced upon the object, if one is: `enforcedNamespaceLabel`, unless the object is excluded. Its
/// value is the object's namespace.
pub fn enforced_label<'a>(settings: &'a Settings, object: &Object) -> Option<&'a str>
    ensures { option_map (λ label. label.now) result ≡ spec.enforced_label settings.now object.now }
{
    match &settings.prometheus {
        Some(prometheus) => label_upon(object.key(), prometheus),
        None => None,
    }
}

fn label_upon<'a>(key: &Key, prometheus: &'a PrometheusSpec) -> Option<&'a str>
    ensures { option_map (λ label. label.now) result ≡ spec.label_upon key.now prometheus.now }
{
    if is_excluded(key, prometheus.excluded_from_enforcement.as_slice()) {
        return None;
    }
    match &prometheus.enforced_namespace_label {
        Some(label) => Some(label.as_str()),
        None => None,
    }
}

fn is_excluded(key: &Key, exclusions: &[Exclusion]) -> bool
    ensures { result ≡ list_any (spec.excludes key.now) exclusions.now }
{
    exclusions.iter().any(|one| excludes(key, one))
}

fn excludes(key: &Key, exclusion: &Exclusion) -> bool
    ensures { result ≡ spec.excludes key.now exclusion.now }
{
    exclusion.resource.name() == key.kind.name()
        && exclusion.namespace.as_bytes() == key.namespace.as_bytes()
        && names_it(key, exclusion)
}

// The exclusion has the object's name or none.
fn names_it(key: &Key, exclusion: &Exclusion) -> bool
    ensures { result ≡ option_map_or (λ name. bytes_eq name key.now.name) exclusion.now.name true }
{
    match &exclusion.name {
        Some(name) => name.as_bytes() == key.name.as_bytes(),
        None => true,
    }
}
