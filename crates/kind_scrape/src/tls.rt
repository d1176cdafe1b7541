ghost use Rattle.op_manifest.specs.Trees.{data_of};
ghost use Rattle.op_manifest.specs.Shapes.{Adds};
ghost use Rattle.op_manifest.specs.Checks as check;
ghost use Rattle.op_manifest.specs.Parts as part;
ghost use Rattle.kind_scrape.specs.Tls as spec;

use op_base::{NoMemory, Text};
use op_manifest::{Item, Shape, Tree, given, noted_flag, noted_known, noted_text, path_to};
use std::alloc::Global;

/// How a scrape checks its targets by TLS, and with which files. PodMonitors name no file.
#[derive(Debug, PartialEq, Eq, Drop)]
pub struct TlsConfig {
    pub insecure_skip_verify: Option<bool>,
    pub server_name: Option<Text>,
    pub ca_file: Option<Text>,
    pub cert_file: Option<Text>,
    pub key_file: Option<Text>,
}

impl Item for TlsConfig {
    ghost use Rattle.op_manifest.specs.Checks.{table};
    ghost use Rattle.kind_scrape.specs.Tls as spec;

    ghost wrongs = { table spec.tls_rows };

    ghost of = { spec.tls_of };

    fn read(
        found: &mut Option<Shape>,
        alloc: Global,
        tree: &Tree,
        path: &str,
    ) -> Result<TlsConfig, NoMemory> {
        let names = [
            "insecureSkipVerify",
            "serverName",
            "caFile",
            "certFile",
            "keyFile",
        ];
        noted_known(found, alloc, tree, &names, path)?;
        let insecure_skip_verify = noted_flag(found, alloc, tree, "insecureSkipVerify", path)?;
        let server_name = noted_text(found, alloc, tree, "serverName", path)?;
        let ca_file = noted_text(found, alloc, tree, "caFile", path)?;
        let cert_file = noted_text(found, alloc, tree, "certFile", path)?;
        let key_file = noted_text(found, alloc, tree, "keyFile", path)?;
        Ok(TlsConfig {
            insecure_skip_verify,
            server_name,
            ca_file,
            cert_file,
            key_file,
        })
    }
}

/// The TLS settings of the field, which may name no file.
#[tactic(auto, using(op_manifest::proofs::ShapeLemmas::later_none), unfolding(op_manifest::specs::Checks::optional, op_manifest::specs::Parts::item_in))]
pub(crate) fn noted_pod_tls(
    found: &mut Option<Shape>,
    alloc: Global,
    tree: &Tree,
    name: &str,
    path: &str,
) -> Result<Option<TlsConfig>, NoMemory>
    ensures { Adds (λ tls. tls) found.old found.new result
        (check.optional (check.table spec.pod_tls_rows) name.now path.now (data_of tree.now))
        (part.item_in spec.pod_tls_of name.now (data_of tree.now)) }
{
    match given(tree, name) {
        Some(value) => {
            let path = path_to(alloc, path, name)?;
            Ok(Some(read_pod_tls(found, alloc, value, path.as_str())?))
        }
        None => Ok(None),
    }
}

fn read_pod_tls(
    found: &mut Option<Shape>,
    alloc: Global,
    tree: &Tree,
    path: &str,
) -> Result<TlsConfig, NoMemory>
    ensures { Adds (λ tls. tls) found.old found.new result
        (check.table spec.pod_tls_rows path.now (data_of tree.now)) (spec.pod_tls_of (data_of tree.now)) }
{
    noted_known(
        found,
        alloc,
        tree,
        &["insecureSkipVerify", "serverName"],
        path,
    )?;
    let insecure_skip_verify = noted_flag(found, alloc, tree, "insecureSkipVerify", path)?;
    let server_name = noted_text(found, alloc, tree, "serverName", path)?;
    Ok(TlsConfig {
        insecure_skip_verify,
        server_name,
        ca_file: None,
        cert_file: None,
        key_file: None,
    })
}
