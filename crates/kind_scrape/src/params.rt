ghost use Rattle.std.specs.Prelude.{◌≡◌, ◌++◌, OnOk};
ghost use Rattle.op_manifest.specs.Trees.{data_of, items_in, members_in};
ghost use Rattle.op_manifest.specs.Shapes.{Adds};
ghost use Rattle.op_manifest.specs.Shapes as shapes;
ghost use Rattle.op_manifest.specs.Checks as check;
ghost use Rattle.op_manifest.specs.Maps as maps;
ghost use Rattle.op_manifest.specs.Values as value;
ghost use Rattle.op_manifest.specs.declared.shape.TheConstants.ShapeRule as rule;
ghost use Rattle.kind_scrape.specs.Params as spec;

use op_base::{List, NoMemory, Text};
use op_manifest::{Item, Shape, ShapeRule, Tree, given, path_at, path_to, tell};
use std::alloc::Global;

/// A parameter of a URL, with its values.
#[derive(Debug, PartialEq, Eq, Drop)]
pub struct Parameter {
    pub name: Text,
    pub values: List<Text>,
}

/// The parameters of the field, in the order of their names; none where it isn't there.
#[tactic(auto, using(op_manifest::proofs::ShapeLemmas::later_none), unfolding(op_manifest::specs::Checks::optional, op_manifest::specs::Checks::keyed, crate::specs::Params::params_in))]
pub(crate) fn noted_params(
    found: &mut Option<Shape>,
    alloc: Global,
    tree: &Tree,
    name: &str,
    path: &str,
) -> Result<List<Parameter>, NoMemory>
    ensures { Adds (λ params. params) found.old found.new result
        (check.optional spec.params name.now path.now (data_of tree.now)) (spec.params_in name.now (data_of tree.now)) }
{
    match given(tree, name) {
        Some(value) => {
            let path = path_to(alloc, path, name)?;
            match value.as_fields() {
                Some(fields) => read_params(found, alloc, fields, path.as_str()),
                None => {
                    tell(found, ShapeRule::WRONG_TYPE, path);
                    Ok(List::new(alloc))
                }
            }
        }
        None => Ok(List::new(alloc)),
    }
}

fn read_params(
    found: &mut Option<Shape>,
    alloc: Global,
    fields: &[(Text, Tree)],
    path: &str,
) -> Result<List<Parameter>, NoMemory>
    ensures { Adds (λ params. params) found.old found.new result
        (check.entries_wrongs maps.is_any rule.BAD_LABEL (check.list check.text) path.now (members_in fields.now))
        (spec.params_of (members_in fields.now)) }
{
    let mut all = List::new(alloc);
    for field in fields {
        read_param(found, alloc, &mut all, field.0.as_str(), &field.1, path)?;
    }
    Ok(all)
}

// An entry that is null is passed over.
#[tactic(auto, using(op_manifest::proofs::ShapeLemmas::later_none))]
fn read_param(
    found: &mut Option<Shape>,
    alloc: Global,
    all: &mut List<Parameter>,
    name: &str,
    value: &Tree,
    path: &str,
) -> Result<(), NoMemory>
    ensures wrongs { OnOk result (found.new ≡ shapes.later found.old
        (check.entry_wrongs maps.is_any rule.BAD_LABEL (check.list check.text) path.now name.now (data_of value.now))) }
    ensures params { OnOk result (all.new ≡ all.old ++ spec.param_of name.now (data_of value.now)) }
{
    match value {
        Tree::Null => Ok(()),
        _ => {
            let path = path_to(alloc, path, name)?;
            put_param(found, alloc, all, name, value, path)
        }
    }
}

#[tactic(auto, using(crate::proofs::ParamLemmas::no_more), unfolding(op_manifest::specs::Checks::list))]
fn put_param(
    found: &mut Option<Shape>,
    alloc: Global,
    all: &mut List<Parameter>,
    name: &str,
    value: &Tree,
    path: Text,
) -> Result<(), NoMemory>
    ensures wrongs { OnOk result (found.new ≡ shapes.later found.old (check.list check.text path (data_of value.now))) }
    ensures params { OnOk result (all.new ≡ all.old ++ spec.param_of name.now (data_of value.now)) }
{
    match value.as_items() {
        Some(items) => {
            let values = each_text(found, alloc, items, path.as_str())?;
            all.push(Parameter {
                name: Text::from_str(alloc, name)?,
                values,
            })?;
            Ok(())
        }
        None => {
            tell(found, ShapeRule::WRONG_TYPE, path);
            Ok(())
        }
    }
}

fn each_text(
    found: &mut Option<Shape>,
    alloc: Global,
    items: &[Tree],
    path: &str,
) -> Result<List<Text>, NoMemory>
    ensures { Adds (λ texts. texts) found.old found.new result
        (check.items_from check.text path.now 0 (items_in items.now))
        (value.each_of value.text_of (items_in items.now)) }
{
    let mut all = List::new(alloc);
    for index in 0..items.len() {
        let path = path_at(alloc, path, index)?;
        all.push(<Text as Item>::read(found, alloc, &items[index], path.as_str())?)?;
    }
    Ok(all)
}
