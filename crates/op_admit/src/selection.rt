ghost use Rattle.std.specs.Prelude.{◌≡◌, true};
ghost use Rattle.op_admit.specs.Selected as spec;

use crate::namespace_tags::holds_on_namespace;
use crate::object::Object;
use kind_admin::{PrometheusSpec, Settings};
use kind_rules::RuleObject;
use kind_scrape::ScrapeObject;
use op_base::{Key, Selector, Tags};

/// Whether the settings choose the object; `tags` are those of its Namespace object. It takes no memory.
pub fn selected(settings: &Settings, tags: &Tags, object: &Object) -> bool
    requires { spec.is_compiled object.now ≡ true }
    ensures { result ≡ spec.selected settings.now tags.now object.now }
{
    match object {
        Object::Scrape(scrape) => match &settings.prometheus {
            Some(prometheus) => takes_scrape(prometheus, tags, scrape),
            None => false,
        },
        Object::Rules(RuleObject::Rules(rules)) => match &settings.prometheus {
            Some(prometheus) => takes(
                &prometheus.rule_selector,
                &prometheus.rule_namespace_selector,
                &prometheus.key,
                tags,
                &rules.key,
                &rules.tags,
            ),
            None => false,
        },
        Object::Rules(RuleObject::Routes(routes)) => match &settings.alertmanager {
            Some(alertmanager) => takes(
                &alertmanager.alertmanager_config_selector,
                &alertmanager.alertmanager_config_namespace_selector,
                &alertmanager.key,
                tags,
                &routes.key,
                &routes.tags,
            ),
            None => false,
        },
        Object::Admin(_) => false,
    }
}

fn takes_scrape(prometheus: &PrometheusSpec, tags: &Tags, object: &ScrapeObject) -> bool
    ensures { result ≡ spec.takes_scrape prometheus.now tags.now object.now }
{
    let own = &prometheus.key;
    match object {
        ScrapeObject::Service(monitor) => takes(
            &prometheus.service_monitor_selector,
            &prometheus.service_monitor_namespace_selector,
            own,
            tags,
            &monitor.key,
            &monitor.tags,
        ),
        ScrapeObject::Pod(monitor) => takes(
            &prometheus.pod_monitor_selector,
            &prometheus.pod_monitor_namespace_selector,
            own,
            tags,
            &monitor.key,
            &monitor.tags,
        ),
        ScrapeObject::Probe(probe) => takes(
            &prometheus.probe_selector,
            &prometheus.probe_namespace_selector,
            own,
            tags,
            &probe.key,
            &probe.tags,
        ),
    }
}

// Both selectors hold; `own` is the key of the settings object.
fn takes(
    objects: &Option<Selector>,
    namespaces: &Option<Selector>,
    own: &Key,
    tags: &Tags,
    key: &Key,
    labels: &Tags,
) -> bool
    ensures { result ≡ spec.takes objects.now namespaces.now own.now.namespace tags.now key.now labels.now }
{
    takes_object(objects, labels) && takes_namespace(namespaces, own, key, tags)
}

fn takes_object(selector: &Option<Selector>, labels: &Tags) -> bool
    ensures { result ≡ spec.takes_object selector.now labels.now }
{
    match selector {
        Some(selector) => selector.holds(labels),
        None => false,
    }
}

fn takes_namespace(selector: &Option<Selector>, own: &Key, key: &Key, tags: &Tags) -> bool
    ensures { result ≡ spec.takes_namespace selector.now own.now.namespace key.now.namespace tags.now }
{
    match selector {
        Some(selector) => holds_on_namespace(selector, key.namespace.as_str(), tags),
        None => key.namespace.as_bytes() == own.namespace.as_bytes(),
    }
}
