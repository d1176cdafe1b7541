ghost use Rattle.std.specs.Prelude.{◌≡◌, true};
ghost use Rattle.op_manifest.specs.Heads.{kind_in};
ghost use Rattle.op_manifest.specs.Shapes.{ReadsBy};
ghost use Rattle.op_manifest.specs.Trees.{data_of};
ghost use Rattle.kind_admin.specs.AdminObjects as spec;

use crate::alertmanager::{AlertmanagerSpec, read_alertmanager};
use crate::namespace::{Namespace, read_namespace};
use crate::prometheus::{PrometheusSpec, read_prometheus};
use crate::secret::{Secret, read_secret};
use op_base::Kind;
use op_manifest::{ShapeFault, Tree, kind_of};
use std::alloc::Global;

/// An object of the administrator, or a Secret.
#[derive(Debug, Drop)]
pub enum AdminObject {
    Prometheus(PrometheusSpec),
    Alertmanager(AlertmanagerSpec),
    Namespace(Namespace),
    Secret(Secret),
}

/// The settings objects that are present.
#[derive(Debug, PartialEq, Eq, Drop)]
pub struct Settings {
    pub prometheus: Option<PrometheusSpec>,
    pub alertmanager: Option<AlertmanagerSpec>,
}

/// Reads a manifest of one of these kinds. `Broken` tells the first rule on shape that it breaks.
pub fn read_admin(alloc: Global, tree: &Tree) -> Result<AdminObject, ShapeFault>
    requires { spec.is_admin (kind_in (data_of tree.now)) ≡ true }
    ensures { ReadsBy (λ object. object) result
        (spec.admin_wrongs (kind_in (data_of tree.now)) (data_of tree.now))
        (spec.admin_of (kind_in (data_of tree.now)) (data_of tree.now)) }
{
    match kind_of(tree) {
        Some(Kind::Prometheus) => match read_prometheus(alloc, tree) {
            Ok(prometheus) => Ok(AdminObject::Prometheus(prometheus)),
            Err(fault) => Err(fault),
        },
        Some(Kind::Alertmanager) => match read_alertmanager(alloc, tree) {
            Ok(alertmanager) => Ok(AdminObject::Alertmanager(alertmanager)),
            Err(fault) => Err(fault),
        },
        Some(Kind::Namespace) => match read_namespace(alloc, tree) {
            Ok(namespace) => Ok(AdminObject::Namespace(namespace)),
            Err(fault) => Err(fault),
        },
        _ => match read_secret(alloc, tree) {
            Ok(secret) => Ok(AdminObject::Secret(secret)),
            Err(fault) => Err(fault),
        },
    }
}
