ghost use Rattle.std.specs.Prelude.{◌≡◌, ◌++◌, [], codes, map, unwrap_or, IfOk, OnOk};
ghost use Rattle.op_manifest.specs.Trees.{data_of, items_in};
ghost use Rattle.op_manifest.specs.Shapes.{Adds, ReadsBy};
ghost use Rattle.op_manifest.specs.Shapes as shapes;
ghost use Rattle.op_manifest.specs.Checks as check;
ghost use Rattle.op_manifest.specs.Values as value;
ghost use Rattle.op_manifest.specs.Selectors as spec;

use crate::fields::{given, tell_unless};
use crate::forms::{TagKey, TagValue, noted_worded_items, required_worded};
use crate::items::{Item, noted_items, or_none};
use crate::maps::noted_map;
use crate::operator::Operator;
use crate::parts::{noted_item, required_item};
use crate::reference::text_or_empty;
use crate::shape::{Shape, ShapeFault, ShapeRule, path_to, tell};
use crate::strays::noted_known;
use crate::tree::Tree;
use op_base::{List, NoMemory, Requirement, Selector, Tags, Text};
use std::alloc::Global;

/// The selector of the field.
pub fn noted_selector(
    found: &mut Option<Shape>,
    alloc: Global,
    tree: &Tree,
    name: &str,
    path: &str,
) -> Result<Option<Selector>, NoMemory>
    ensures { Adds (λ selector. selector) found.old found.new result
        (check.optional spec.selector name.now path.now (data_of tree.now)) (spec.selector_in name.now (data_of tree.now)) }
{
    noted_item(found, alloc, tree, name, path)
}

/// The selector of a field that has to stand.
pub fn required_selector(
    found: &mut Option<Shape>,
    alloc: Global,
    tree: &Tree,
    name: &str,
    path: &str,
) -> Result<Option<Selector>, NoMemory>
    ensures { Adds (λ selector. selector) found.old found.new result
        (check.required spec.selector name.now path.now (data_of tree.now)) (spec.selector_in name.now (data_of tree.now)) }
{
    required_item(found, alloc, tree, name, path)
}

/// The selector of the field, alone: `Broken` tells the first rule that it breaks.
#[tactic(auto, using(crate::proofs::ShapeLemmas::later_first))]
pub fn selector_at(
    alloc: Global,
    tree: &Tree,
    name: &str,
    path: &str,
) -> Result<Option<Selector>, ShapeFault>
    ensures { ReadsBy (λ selector. selector) result
        (check.optional spec.selector name.now path.now (data_of tree.now)) (spec.selector_in name.now (data_of tree.now)) }
{
    let mut found = None;
    let selector = noted_selector(&mut found, alloc, tree, name, path)?;
    match found {
        Some(shape) => Err(ShapeFault::Broken(shape)),
        None => Ok(selector),
    }
}

impl Item for Selector {
    ghost use Rattle.op_manifest.specs.Selectors as spec;

    ghost wrongs = { spec.selector };

    ghost of = { spec.selector_of };

    fn read(
        found: &mut Option<Shape>,
        alloc: Global,
        tree: &Tree,
        path: &str,
    ) -> Result<Selector, NoMemory> {
        noted_known(
            found,
            alloc,
            tree,
            &["matchLabels", "matchExpressions"],
            path,
        )?;
        let labels = noted_map::<TagKey, TagValue>(found, alloc, tree, "matchLabels", path)?;
        let expressions = noted_items::<Requirement>(found, alloc, tree, "matchExpressions", path)?;
        let all = all_of(alloc, labels, expressions)?;
        Ok(Selector { all })
    }
}

// The pairs, and the expressions behind them.
fn all_of(
    alloc: Global,
    labels: Option<Tags>,
    expressions: Option<List<Requirement>>,
) -> Result<List<Requirement>, NoMemory>
    ensures { IfOk result (λ all. all ≡ map spec.is_pair (unwrap_or labels []) ++ unwrap_or expressions []) }
{
    let mut all = match labels {
        Some(labels) => pairs(alloc, &labels)?,
        None => List::new(alloc),
    };
    all.append(or_none(alloc, expressions))?;
    Ok(all)
}

fn pairs(alloc: Global, labels: &Tags) -> Result<List<Requirement>, NoMemory>
    ensures { IfOk result (λ all. all ≡ map spec.is_pair labels.now) }
{
    let mut all = List::new(alloc);
    for index in 0..labels.len() {
        let key = Text::from_str(alloc, labels.name_at(index))?;
        all.push(Requirement::Is(key, Text::from_str(alloc, labels.value_at(index))?))?;
    }
    Ok(all)
}

impl Item for Requirement {
    ghost use Rattle.op_manifest.specs.Checks.{table};
    ghost use Rattle.op_manifest.specs.Selectors as spec;

    ghost wrongs = { table spec.expression_rows };

    ghost of = { spec.requirement_of };

    fn read(
        found: &mut Option<Shape>,
        alloc: Global,
        tree: &Tree,
        path: &str,
    ) -> Result<Requirement, NoMemory> {
        noted_known(found, alloc, tree, &["key", "operator", "values"], path)?;
        let key = required_worded::<TagKey>(found, alloc, tree, "key", path)?;
        let operator = required_item::<Operator>(found, alloc, tree, "operator", path)?;
        let key = text_or_empty(alloc, key);
        let requirement = asked(found, alloc, tree, operator, key, path)?;
        Ok(requirement)
    }
}

// What the operator asks of the key, with the values beside it.
#[tactic(auto, using(crate::proofs::ShapeLemmas::later_none))]
fn asked(
    found: &mut Option<Shape>,
    alloc: Global,
    tree: &Tree,
    operator: Option<Operator>,
    key: Text,
    path: &str,
) -> Result<Requirement, NoMemory>
    ensures { Adds (λ requirement. requirement) found.old found.new result
        (spec.values_beside operator path.now (data_of tree.now))
        (spec.asked_by (unwrap_or operator Operator.Exists) key
        (unwrap_or (value.items_in value.text_of (codes "values") (data_of tree.now)) [])) }
{
    match operator {
        Some(Operator::In) => Ok(Requirement::In(key, some_values(found, alloc, tree, path)?)),
        Some(Operator::NotIn) => {
            Ok(Requirement::NotIn(key, some_values(found, alloc, tree, path)?))
        }
        Some(Operator::Exists) => {
            no_values(found, alloc, tree, path)?;
            Ok(Requirement::Exists(key))
        }
        Some(Operator::DoesNotExist) => {
            no_values(found, alloc, tree, path)?;
            Ok(Requirement::Absent(key))
        }
        None => Ok(Requirement::Exists(key)),
    }
}

#[tactic(auto, using(crate::proofs::ShapeLemmas::later_both))]
fn some_values(
    found: &mut Option<Shape>,
    alloc: Global,
    tree: &Tree,
    path: &str,
) -> Result<List<Text>, NoMemory>
    ensures { Adds (λ values. values) found.old found.new result
        (spec.some_values path.now (data_of tree.now))
        (unwrap_or (value.items_in value.text_of (codes "values") (data_of tree.now)) []) }
{
    let stand = !lacks_values(tree);
    tell_unless(found, alloc, stand, ShapeRule::MISSING, "values", path)?;
    let values = noted_worded_items::<TagValue>(found, alloc, tree, "values", path)?;
    Ok(or_none(alloc, values))
}

fn lacks_values(tree: &Tree) -> bool
    ensures { result ≡ spec.lacks_values (data_of tree.now) }
{
    match given(tree, "values") {
        Some(values) => is_empty_list(values),
        None => true,
    }
}

fn is_empty_list(tree: &Tree) -> bool
    ensures { result ≡ spec.is_empty_list (data_of tree.now) }
{
    match tree.as_items() {
        Some(items) => is_empty(items),
        None => false,
    }
}

#[tactic(auto, using(crate::proofs::SelectorLemmas::not_empty))]
fn is_empty(items: &[Tree]) -> bool
    ensures { result ≡ spec.is_empty (items_in items.now) }
{
    match items {
        [] => true,
        [_, ..] => false,
    }
}

#[tactic(auto, using(crate::proofs::ShapeLemmas::later_none), unfolding(crate::specs::Checks::optional, crate::specs::Selectors::empty_list))]
fn no_values(
    found: &mut Option<Shape>,
    alloc: Global,
    tree: &Tree,
    path: &str,
) -> Result<(), NoMemory>
    ensures { OnOk result (found.new ≡ shapes.later found.old
        (check.optional spec.empty_list (codes "values") path.now (data_of tree.now))) }
{
    match given(tree, "values") {
        Some(values) => match values.as_items() {
            Some(items) => {
                tell_unless(
                    found,
                    alloc,
                    is_empty(items),
                    ShapeRule::UNKNOWN_FIELD,
                    "values",
                    path,
                )
            }
            None => {
                tell(
                    found,
                    ShapeRule::WRONG_TYPE,
                    path_to(alloc, path, "values")?,
                );
                Ok(())
            }
        },
        None => Ok(()),
    }
}
