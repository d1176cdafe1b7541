ghost use Rattle.std.specs.Prelude.{◌≡◌};
ghost use Rattle.op_manifest.specs.Trees.{data_of};
ghost use Rattle.op_manifest.specs.Shapes.{Adds, ReadsBy};
ghost use Rattle.op_manifest.specs.Checks as check;
ghost use Rattle.op_manifest.specs.Parts as part;
ghost use Rattle.op_manifest.specs.AmSpecs as spec;

use crate::fields::given;
use crate::items::{noted_items, or_none};
use crate::matching::InhibitRule;
use crate::receiver::{Receiver, noted_receivers};
use crate::route::{Route, read_route};
use crate::shape::{Shape, ShapeFault, path_to};
use crate::strays::noted_known;
use crate::tree::Tree;
use op_base::{List, NoMemory};
use std::alloc::Global;

// As deep as JSON texts nest that `serde_json` reads.
const DEEPEST: usize = 127;

/// The spec of an AlertmanagerConfig, or the base configuration of an Alertmanager.
#[derive(Debug, PartialEq, Eq, Drop)]
pub struct AmSpec {
    pub route: Option<Route>,
    pub receivers: List<Receiver>,
    pub inhibit_rules: List<InhibitRule>,
}

/// The spec at the path; `base` tells whether it is the base configuration, whose webhooks name no Secret. `Broken`
/// tells the first rule that it breaks.
#[tactic(auto, using(crate::proofs::ShapeLemmas::later_first))]
pub fn read_am_spec(
    alloc: Global,
    tree: &Tree,
    path: &str,
    base: bool,
) -> Result<AmSpec, ShapeFault>
    ensures { ReadsBy (λ read. read) result (spec.am_spec base path.now (data_of tree.now)) (spec.am_spec_of base (data_of tree.now)) }
{
    let mut found = None;
    let read = noted_am_spec(&mut found, alloc, tree, path, base)?;
    match found {
        Some(shape) => Err(ShapeFault::Broken(shape)),
        None => Ok(read),
    }
}

/// The spec at the path, as `read_am_spec` reads it.
pub fn noted_am_spec(
    found: &mut Option<Shape>,
    alloc: Global,
    tree: &Tree,
    path: &str,
    base: bool,
) -> Result<AmSpec, NoMemory>
    ensures { Adds (λ read. read) found.old found.new result
        (spec.am_spec base path.now (data_of tree.now)) (spec.am_spec_of base (data_of tree.now)) }
{
    noted_known(
        found,
        alloc,
        tree,
        &["route", "receivers", "inhibitRules"],
        path,
    )?;
    let route = noted_route(found, alloc, tree, "route", path)?;
    let all = noted_receivers(found, alloc, tree, "receivers", path, base)?;
    let rules = noted_items::<InhibitRule>(found, alloc, tree, "inhibitRules", path)?;
    let receivers = or_none(alloc, all);
    let inhibit_rules = or_none(alloc, rules);
    Ok(AmSpec {
        route,
        receivers,
        inhibit_rules,
    })
}

#[tactic(auto, using(crate::proofs::ShapeLemmas::later_none), unfolding(crate::specs::Checks::optional, crate::specs::Parts::item_in))]
fn noted_route(
    found: &mut Option<Shape>,
    alloc: Global,
    tree: &Tree,
    name: &str,
    path: &str,
) -> Result<Option<Route>, NoMemory>
    ensures { Adds (λ route. route) found.old found.new result
        (check.optional spec.route name.now path.now (data_of tree.now))
        (part.item_in spec.route_of name.now (data_of tree.now)) }
{
    match given(tree, name) {
        Some(value) => {
            let path = path_to(alloc, path, name)?;
            Ok(Some(read_route(found, alloc, value, path.as_str(), DEEPEST)?))
        }
        None => Ok(None),
    }
}
