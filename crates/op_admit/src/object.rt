ghost use Rattle.std.specs.Prelude.{◌≡◌, [], Some, None};
ghost use Rattle.op_manifest.specs.Heads.{kind_in, head_wrongs};
ghost use Rattle.op_manifest.specs.Shapes.{ReadsBy};
ghost use Rattle.op_manifest.specs.Trees.{data_of};
ghost use Rattle.op_admit.specs.Objects as spec;

use kind_admin::{AdminObject, read_admin};
use kind_rules::{RuleObject, read_rules};
use kind_scrape::{ScrapeObject, read_scrape};
use op_base::{Key, Kind, Tags};
use op_manifest::{ShapeFault, Tree, kind_of, noted_head};
use std::alloc::Global;

/// An object of any kind.
#[derive(Debug, Drop)]
pub enum Object {
    Scrape(ScrapeObject),
    Rules(RuleObject),
    Admin(AdminObject),
}

impl Object {
    /// What names it.
    pub fn key(&self) -> &Key
        ensures { result.now ≡ spec.key_of self.now }
    {
        match self {
            Object::Scrape(ScrapeObject::Service(monitor)) => &monitor.key,
            Object::Scrape(ScrapeObject::Pod(monitor)) => &monitor.key,
            Object::Scrape(ScrapeObject::Probe(probe)) => &probe.key,
            Object::Rules(RuleObject::Rules(rules)) => &rules.key,
            Object::Rules(RuleObject::Routes(routes)) => &routes.key,
            Object::Admin(AdminObject::Prometheus(prometheus)) => &prometheus.key,
            Object::Admin(AdminObject::Alertmanager(alertmanager)) => &alertmanager.key,
            Object::Admin(AdminObject::Namespace(namespace)) => &namespace.key,
            Object::Admin(AdminObject::Secret(secret)) => &secret.key,
        }
    }

    /// Its labels.
    pub fn tags(&self) -> &Tags
        ensures { result.now ≡ spec.tags_of self.now }
    {
        match self {
            Object::Scrape(ScrapeObject::Service(monitor)) => &monitor.tags,
            Object::Scrape(ScrapeObject::Pod(monitor)) => &monitor.tags,
            Object::Scrape(ScrapeObject::Probe(probe)) => &probe.tags,
            Object::Rules(RuleObject::Rules(rules)) => &rules.tags,
            Object::Rules(RuleObject::Routes(routes)) => &routes.tags,
            Object::Admin(AdminObject::Prometheus(prometheus)) => &prometheus.tags,
            Object::Admin(AdminObject::Alertmanager(alertmanager)) => &alertmanager.tags,
            Object::Admin(AdminObject::Namespace(namespace)) => &namespace.tags,
            Object::Admin(AdminObject::Secret(secret)) => &secret.tags,
        }
    }
}

/// Reads a manifest of any kind. `Broken` tells the first rule on shape that it breaks.
pub fn read_object(alloc: Global, tree: &Tree) -> Result<Object, ShapeFault>
    ensures { ReadsBy Some result
        (spec.object_wrongs (kind_in (data_of tree.now)) (data_of tree.now))
        (spec.object_of (kind_in (data_of tree.now)) (data_of tree.now)) }
{
    match kind_of(tree) {
        Some(Kind::ServiceMonitor | Kind::PodMonitor | Kind::Probe) => {
            match read_scrape(alloc, tree) {
                Ok(scrape) => Ok(Object::Scrape(scrape)),
                Err(fault) => Err(fault),
            }
        }
        Some(Kind::PrometheusRule | Kind::AlertmanagerConfig) => match read_rules(alloc, tree) {
            Ok(rules) => Ok(Object::Rules(rules)),
            Err(fault) => Err(fault),
        },
        Some(_) => match read_admin(alloc, tree) {
            Ok(admin) => Ok(Object::Admin(admin)),
            Err(fault) => Err(fault),
        },
        None => Err(head_fault(alloc, tree)),
    }
}

// What is wrong first with the head of a manifest that names no kind.
#[tactic(auto, using(op_manifest::proofs::ShapeLemmas::later_first, crate::proofs::KindLemmas::no_kind_breach))]
fn head_fault(alloc: Global, tree: &Tree) -> ShapeFault
    requires { kind_in (data_of tree.now) ≡ None }
    ensures { spec.IsFirstOf result (head_wrongs [] (data_of tree.now)) }
{
    let mut found = None;
    match noted_head(&mut found, alloc, tree) {
        Ok(_head) => match found {
            Some(shape) => ShapeFault::Broken(shape),
            None => unreachable!(),
        },
        Err(_) => ShapeFault::NoMemory,
    }
}
