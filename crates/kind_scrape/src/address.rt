ghost use Rattle.std.specs.Prelude.{◌≡◌};
ghost use Rattle.std.specs.List.{list_all};
ghost use Rattle.op_base.specs.Names.{is_part_byte};
ghost use Rattle.op_manifest.specs.Trees.{data_of};
ghost use Rattle.op_manifest.specs.Shapes.{Adds};
ghost use Rattle.op_manifest.specs.Checks as check;
ghost use Rattle.kind_scrape.specs.EndpointTables as spec;

use crate::needed::text_or;
use crate::scheme::{Scheme, noted_scheme};
use op_base::{NoMemory, Text};
use op_manifest::{Shape, ShapeRule, TextForm, Tree, noted_worded};
use std::alloc::Global;

/// Where a target is scraped: the port by its name, the path, and the scheme.
#[derive(Debug, PartialEq, Eq, Drop)]
pub struct Address {
    pub port: Option<Text>,
    pub path: Text,
    pub scheme: Scheme,
}

pub(crate) struct PortName;

impl TextForm for PortName {
    ghost use Rattle.op_manifest.specs.declared.shape.TheConstants.ShapeRule as rule;
    ghost use Rattle.kind_scrape.specs.EndpointTables as spec;

    ghost passes = { spec.is_port_name };

    ghost broken = { rule.BAD_NAME };

    fn passes(text: &str) -> bool {
        let bytes = text.as_bytes();
        1 <= bytes.len() && bytes.len() <= 63 && all_port_bytes(bytes)
    }

    fn broken() -> ShapeRule {
        ShapeRule::BAD_NAME
    }
}

fn all_port_bytes(bytes: &[u8]) -> bool
    ensures { result ≡ list_all is_part_byte bytes.now }
{
    bytes.iter().all(|b| is_port_byte(*b))
}

fn is_port_byte(b: u8) -> bool
    ensures { result ≡ is_part_byte b }
{
    b.is_ascii_lowercase() || b.is_ascii_digit() || b == b'-'
}

/// Where a target is scraped.
pub(crate) fn noted_address(
    found: &mut Option<Shape>,
    alloc: Global,
    tree: &Tree,
    path: &str,
) -> Result<Address, NoMemory>
    ensures { Adds (λ address. address) found.old found.new result
        (check.rows_wrongs spec.address_rows path.now (data_of tree.now)) (spec.address_of (data_of tree.now)) }
{
    let port = noted_worded::<PortName>(found, alloc, tree, "port", path)?;
    let at = text_or(found, alloc, tree, "path", path, "/metrics")?;
    let scheme = noted_scheme(found, alloc, tree, "scheme", path)?;
    Ok(Address {
        port,
        path: at,
        scheme,
    })
}
