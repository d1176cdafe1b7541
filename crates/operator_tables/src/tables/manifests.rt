use crate::tables::{misfit, said};
use crate::trouble::Trouble;
use kind_admin::read_admin;
use kind_rules::read_rules;
use kind_scrape::read_scrape;
use op_base::{Kind, NoMemory, Text};
use op_manifest::{Shape, ShapeFault, Tree, key_of, kind_of};
use std::alloc::Global;

/// Of a manifest: `read`, or the first rule on shape that it breaks, and where.
pub fn found(alloc: Global, given: &[Text]) -> Result<Text, Trouble> {
    match given {
        [manifest] => Ok(told(alloc, manifest.as_bytes())?),
        _ => misfit(),
    }
}

fn told(alloc: Global, manifest: &[u8]) -> Result<Text, NoMemory> {
    match read(alloc, manifest) {
        Ok(true) => said(alloc, "read", ""),
        Ok(false) => said(alloc, "!NoKind", ""),
        Err(ShapeFault::Broken(shape)) => breach_said(alloc, &shape),
        Err(ShapeFault::NoMemory) => Err(NoMemory),
    }
}

// The rule, and behind a blank the path, where there is one.
fn breach_said(alloc: Global, shape: &Shape) -> Result<Text, NoMemory> {
    let mut text = shape.rule.text(alloc)?;
    if !shape.path.is_empty() {
        text.push_str(" ")?;
        text.push_str(shape.path.as_str())?;
    }
    Ok(text)
}

// Whether it has a kind; it is read as that. What has none breaks a rule on heads.
fn read(alloc: Global, manifest: &[u8]) -> Result<bool, ShapeFault> {
    let tree = Tree::read(alloc, manifest)?;
    match kind_of(&tree) {
        Some(Kind::ServiceMonitor) | Some(Kind::PodMonitor) | Some(Kind::Probe) => {
            let _read = read_scrape(alloc, &tree)?;
        }
        Some(Kind::PrometheusRule) | Some(Kind::AlertmanagerConfig) => {
            let _read = read_rules(alloc, &tree)?;
        }
        Some(Kind::Prometheus)
        | Some(Kind::Alertmanager)
        | Some(Kind::Namespace)
        | Some(Kind::Secret) => {
            let _read = read_admin(alloc, &tree)?;
        }
        None => {
            let _key = key_of(alloc, &tree)?;
            return Ok(false);
        }
    }
    Ok(true)
}
