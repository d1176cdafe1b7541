ghost use Rattle.std.specs.Prelude.{◌≡◌, Some};
ghost use Rattle.op_base.specs.declared.kind.Kind.TheVariants as kind;
ghost use Rattle.op_manifest.specs.Heads.{kind_in};
ghost use Rattle.op_manifest.specs.Trees.{data_of};
ghost use Rattle.op_manifest.specs.Shapes.{Adds, ReadsBy};
ghost use Rattle.kind_rules.specs.AlertmanagerConfigs as spec;

use op_base::{Key, List, NoMemory, Tags, Text};
use op_manifest::{
    AmSpec, InhibitRule, Receiver, Route, Shape, ShapeFault, ShapeRule, Tree, given, noted_am_spec,
    noted_head, tell,
};
use std::alloc::Global;

/// An AlertmanagerConfig object. It may lack its route.
#[derive(Debug, PartialEq, Eq, Drop)]
pub struct AlertmanagerConfigObject {
    pub key: Key,
    pub tags: Tags,
    pub route: Option<Route>,
    pub receivers: List<Receiver>,
    pub inhibit_rules: List<InhibitRule>,
}

/// Reads a manifest of the kind AlertmanagerConfig. `Broken` tells the first rule on shape that it breaks.
#[tactic(auto, using(op_manifest::proofs::ShapeLemmas::later_first))]
pub fn read_alertmanager_config(
    alloc: Global,
    tree: &Tree,
) -> Result<AlertmanagerConfigObject, ShapeFault>
    requires { kind_in (data_of tree.now) ≡ Some kind.AlertmanagerConfig }
    ensures { ReadsBy (λ object. object) result
        (spec.alertmanager_config_wrongs (data_of tree.now)) (spec.alertmanager_config_of (data_of tree.now)) }
{
    let mut found = None;
    let object = noted_object(&mut found, alloc, tree)?;
    match found {
        Some(shape) => Err(ShapeFault::Broken(shape)),
        None => Ok(object),
    }
}

#[tactic(auto, using(op_manifest::proofs::ShapeLemmas::later_both))]
fn noted_object(
    found: &mut Option<Shape>,
    alloc: Global,
    tree: &Tree,
) -> Result<AlertmanagerConfigObject, NoMemory>
    ensures { Adds (λ object. object) found.old found.new result
        (spec.alertmanager_config_wrongs (data_of tree.now)) (spec.alertmanager_config_of (data_of tree.now)) }
{
    let head = noted_head(found, alloc, tree)?;
    let config = noted_spec(found, alloc, tree)?;
    Ok(AlertmanagerConfigObject {
        key: head.key,
        tags: head.tags,
        route: config.route,
        receivers: config.receivers,
        inhibit_rules: config.inhibit_rules,
    })
}

#[tactic(auto, unfolding(op_manifest::specs::Checks::required))]
fn noted_spec(found: &mut Option<Shape>, alloc: Global, tree: &Tree) -> Result<AmSpec, NoMemory>
    ensures { Adds (λ config. config) found.old found.new result
        (spec.spec_wrongs (data_of tree.now)) (spec.spec_of (data_of tree.now)) }
{
    match given(tree, "spec") {
        Some(config) => noted_am_spec(found, alloc, config, "spec", false),
        None => {
            tell(found, ShapeRule::MISSING, Text::from_str(alloc, "spec")?);
            noted_am_spec(&mut None, alloc, &Tree::Null, "spec", false)
        }
    }
}
