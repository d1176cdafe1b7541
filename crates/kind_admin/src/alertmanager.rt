ghost use Rattle.std.specs.Prelude.{◌≡◌, true, Some};
ghost use Rattle.op_base.specs.declared.kind.Kind.TheVariants as kind;
ghost use Rattle.op_manifest.specs.AmSpecs.{am_spec, am_spec_of};
ghost use Rattle.op_manifest.specs.Checks.{optional, rows_wrongs};
ghost use Rattle.op_manifest.specs.Heads.{kind_in};
ghost use Rattle.op_manifest.specs.Parts.{item_in};
ghost use Rattle.op_manifest.specs.Shapes.{Adds, ReadsBy};
ghost use Rattle.op_manifest.specs.Trees.{data_of};
ghost use Rattle.kind_admin.specs.AlertmanagerTables as spec;

use crate::choice::{Choice, noted_choice};
use crate::open_table::note_barred;
use crate::strategy::MatcherStrategy;
use op_base::{Key, NoMemory, Selector, Tags, Text};
use op_manifest::{
    AmSpec, Shape, ShapeFault, ShapeRule, Tree, given, note_object, noted_am_spec, noted_head,
    noted_item, path_to, tell,
};
use std::alloc::Global;

/// An Alertmanager object: which AlertmanagerConfigs it takes, and the base that they are put under.
#[derive(Debug, PartialEq, Eq, Drop)]
pub struct AlertmanagerSpec {
    pub key: Key,
    pub tags: Tags,
    pub alertmanager_config_selector: Option<Selector>,
    pub alertmanager_config_namespace_selector: Option<Selector>,
    pub alertmanager_config_matcher_strategy: MatcherStrategy,
    pub base_config: Option<AmSpec>,
}

// What the `spec` of an Alertmanager object asks for.
#[derive(Drop)]
pub(crate) struct AlertmanagerParts {
    configs: Choice,
    strategy: MatcherStrategy,
    base_config: Option<AmSpec>,
}

/// Reads a manifest of the kind Alertmanager. `Broken` tells the first rule on shape that it breaks.
#[tactic(auto, using(op_manifest::proofs::ShapeLemmas::later_first))]
pub fn read_alertmanager(alloc: Global, tree: &Tree) -> Result<AlertmanagerSpec, ShapeFault>
    requires { kind_in (data_of tree.now) ≡ Some kind.Alertmanager }
    ensures { ReadsBy (λ object. object) result (spec.alertmanager_wrongs (data_of tree.now)) (spec.alertmanager_of (data_of tree.now)) }
{
    let mut found = None;
    let object = noted_object(&mut found, alloc, tree)?;
    match found {
        Some(shape) => Err(ShapeFault::Broken(shape)),
        None => Ok(object),
    }
}

#[tactic(auto, using(op_manifest::proofs::ShapeLemmas::later_both))]
fn noted_object(
    found: &mut Option<Shape>,
    alloc: Global,
    tree: &Tree,
) -> Result<AlertmanagerSpec, NoMemory>
    ensures { Adds (λ object. object) found.old found.new result
        (spec.alertmanager_wrongs (data_of tree.now)) (spec.alertmanager_of (data_of tree.now)) }
{
    let head = noted_head(found, alloc, tree)?;
    let parts = noted_spec(found, alloc, tree)?;
    Ok(AlertmanagerSpec {
        key: head.key,
        tags: head.tags,
        alertmanager_config_selector: parts.configs.objects,
        alertmanager_config_namespace_selector: parts.configs.namespaces,
        alertmanager_config_matcher_strategy: parts.strategy,
        base_config: parts.base_config,
    })
}

#[tactic(auto, unfolding(op_manifest::specs::Checks::required))]
fn noted_spec(
    found: &mut Option<Shape>,
    alloc: Global,
    tree: &Tree,
) -> Result<AlertmanagerParts, NoMemory>
    ensures { Adds (λ parts. parts) found.old found.new result
        (spec.spec_wrongs (data_of tree.now)) (spec.spec_parts (data_of tree.now)) }
{
    match given(tree, "spec") {
        Some(value) => noted_parts(found, alloc, value, "spec"),
        None => {
            tell(found, ShapeRule::MISSING, Text::from_str(alloc, "spec")?);
            noted_parts(&mut None, alloc, &Tree::Null, "spec")
        }
    }
}

fn noted_parts(
    found: &mut Option<Shape>,
    alloc: Global,
    tree: &Tree,
    path: &str,
) -> Result<AlertmanagerParts, NoMemory>
    ensures { Adds (λ parts. parts) found.old found.new result
        (rows_wrongs spec.alertmanager_rows path.now (data_of tree.now)) (spec.parts_of (data_of tree.now)) }
{
    note_object(found, alloc, tree, path)?;
    note_barred(found, alloc, tree, "alertmanagerConfiguration", path)?;
    note_barred(found, alloc, tree, "configSecret", path)?;
    let configs = noted_choice(
        found,
        alloc,
        tree,
        "alertmanagerConfigSelector",
        "alertmanagerConfigNamespaceSelector",
        path,
    )?;
    let strategy = noted_item(
        found,
        alloc,
        tree,
        "alertmanagerConfigMatcherStrategy",
        path,
    )?;
    let base_config = noted_base(found, alloc, tree, "baseConfig", path)?;
    Ok(AlertmanagerParts {
        configs,
        strategy: strategy.unwrap_or(MatcherStrategy::OnNamespace),
        base_config,
    })
}

#[tactic(auto, using(op_manifest::proofs::ShapeLemmas::later_none), unfolding(op_manifest::specs::Checks::optional, op_manifest::specs::Parts::item_in))]
fn noted_base(
    found: &mut Option<Shape>,
    alloc: Global,
    tree: &Tree,
    name: &str,
    path: &str,
) -> Result<Option<AmSpec>, NoMemory>
    ensures { Adds (λ base. base) found.old found.new result
        (optional (am_spec true) name.now path.now (data_of tree.now))
        (item_in (am_spec_of true) name.now (data_of tree.now)) }
{
    match given(tree, name) {
        Some(value) => {
            let path = path_to(alloc, path, name)?;
            Ok(Some(noted_am_spec(found, alloc, value, path.as_str(), true)?))
        }
        None => Ok(None),
    }
}
