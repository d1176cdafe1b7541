// Relabelling steps, one after the other.
ghost use Rattle.std.specs.Prelude.{◌≡◌, [], unwrap_or};
ghost use Rattle.op_manifest.specs.Trees.{data_of, items_in};
ghost use Rattle.op_manifest.specs.Shapes.{Adds};
ghost use Rattle.op_manifest.specs.Checks as check;
ghost use Rattle.op_manifest.specs.Values as value;
ghost use Rattle.kind_scrape.specs.Relabelings as spec;

use crate::action::{ActionWord, action_or_replace};
use crate::needed::text_or;
use op_base::{List, NoMemory, Text};
use op_manifest::{
    Shape, ShapeRule, Tree, given, noted_items, noted_known, noted_number, noted_worded, or_none,
    path_at, path_to, tell,
};
use op_relabel::Step;
use std::alloc::Global;

/// The steps of the field; none where it isn't there.
#[tactic(auto, using(op_manifest::proofs::ShapeLemmas::later_none), unfolding(op_manifest::specs::Checks::optional, op_manifest::specs::Checks::list, op_manifest::specs::Values::items_in))]
pub(crate) fn noted_steps(
    found: &mut Option<Shape>,
    alloc: Global,
    tree: &Tree,
    name: &str,
    path: &str,
) -> Result<List<Step>, NoMemory>
    ensures { Adds (λ steps. steps) found.old found.new result
        (check.optional spec.steps name.now path.now (data_of tree.now)) (spec.steps_in name.now (data_of tree.now)) }
{
    match given(tree, name) {
        Some(list) => {
            let path = path_to(alloc, path, name)?;
            match list.as_items() {
                Some(items) => each_step(found, alloc, items, path.as_str()),
                None => {
                    tell(found, ShapeRule::WRONG_TYPE, path);
                    Ok(List::new(alloc))
                }
            }
        }
        None => Ok(List::new(alloc)),
    }
}

fn each_step(
    found: &mut Option<Shape>,
    alloc: Global,
    items: &[Tree],
    path: &str,
) -> Result<List<Step>, NoMemory>
    ensures { Adds (λ steps. steps) found.old found.new result
        (check.items_from spec.step path.now 0 (items_in items.now))
        (value.each_of spec.step_of (items_in items.now)) }
{
    let mut all = List::new(alloc);
    for index in 0..items.len() {
        let path = path_at(alloc, path, index)?;
        all.push(read_step(found, alloc, &items[index], path.as_str())?)?;
    }
    Ok(all)
}

fn read_step(
    found: &mut Option<Shape>,
    alloc: Global,
    tree: &Tree,
    path: &str,
) -> Result<Step, NoMemory>
    ensures { Adds (λ step. step) found.old found.new result
        (spec.step path.now (data_of tree.now)) (spec.step_of (data_of tree.now)) }
{
    let names = [
        "sourceLabels",
        "separator",
        "targetLabel",
        "regex",
        "modulus",
        "replacement",
        "action",
    ];
    noted_known(found, alloc, tree, &names, path)?;
    let sources = noted_items::<Text>(found, alloc, tree, "sourceLabels", path)?;
    let separator = text_or(found, alloc, tree, "separator", path, ";")?;
    let target = text_or(found, alloc, tree, "targetLabel", path, "")?;
    let pattern = text_or(found, alloc, tree, "regex", path, "(.*)")?;
    let modulus = noted_number(found, alloc, tree, "modulus", path)?;
    let replacement = text_or(found, alloc, tree, "replacement", path, "$1")?;
    let word = noted_worded::<ActionWord>(found, alloc, tree, "action", path)?;
    Ok(Step {
        action: action_or_replace(word),
        source: or_none(alloc, sources),
        separator,
        pattern,
        replacement,
        target,
        modulus: modulus.unwrap_or(0),
    })
}
