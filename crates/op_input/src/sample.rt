ghost use Rattle.std.specs.Prelude.{◌≡◌, option_map, is_some, unwrap_or, pos};
ghost use Rattle.serde_json.specs.Find.{as_i64};
ghost use Rattle.serde_json.specs.View.{number_view};
ghost use Rattle.op_manifest.specs.Trees.{data_of, items_in};
ghost use Rattle.op_manifest.specs.Shapes.{Adds};
ghost use Rattle.op_manifest.specs.Shapes as shapes;
ghost use Rattle.op_input.specs.Samples as spec;

use crate::labels::noted_labels;
use op_base::{Labels, NoMemory, Text};
use op_manifest::{Shape, ShapeRule, Tree, path_at, tell};
use serde_json::Number;
use srv_scrape::Sample;
use std::alloc::Global;

/// The sample that the value is: a list of exactly two.
#[tactic(auto, unfolding(crate::specs::Samples::sample))]
pub fn noted_sample(
    found: &mut Option<Shape>,
    alloc: Global,
    tree: &Tree,
    path: &str,
) -> Result<Sample, NoMemory>
    ensures { Adds (λ sample. sample) found.old found.new result
        (spec.sample path.now (data_of tree.now)) (spec.sample_of (data_of tree.now)) }
{
    match pair(tree) {
        Some((labels, value)) => noted_parts(found, alloc, labels, value, path),
        None => {
            tell(found, ShapeRule::WRONG_TYPE, Text::from_str(alloc, path)?);
            Ok(Sample {
                labels: Labels::new(alloc),
                value: 0,
            })
        }
    }
}

// The labels come before the value.
#[tactic(auto, using(op_manifest::proofs::ShapeLemmas::later_both))]
fn noted_parts(
    found: &mut Option<Shape>,
    alloc: Global,
    labels: &Tree,
    value: &Tree,
    path: &str,
) -> Result<Sample, NoMemory>
    ensures { Adds (λ sample. sample) found.old found.new result
        (spec.parts_wrongs path.now (data_of labels.now, data_of value.now))
        (spec.parts_of (data_of labels.now, data_of value.now)) }
{
    let labels_path = path_at(alloc, path, 0)?;
    let read = noted_labels(found, alloc, labels, labels_path.as_str())?;
    let value_path = path_at(alloc, path, 1)?;
    let number = noted_value(found, value, value_path);
    Ok(Sample {
        labels: read,
        value: number,
    })
}

#[tactic(auto, unfolding(crate::specs::Samples::value))]
fn noted_value(found: &mut Option<Shape>, tree: &Tree, path: Text) -> i64
    ensures wrongs { found.new ≡ shapes.later found.old (spec.value path (data_of tree.now)) }
    ensures value { result ≡ spec.value_of (data_of tree.now) }
{
    match tree.as_number() {
        Some(number) => value_or_breach(found, number, path),
        None => {
            tell(found, ShapeRule::WRONG_TYPE, path);
            0
        }
    }
}

#[tactic(auto, using(op_manifest::proofs::ShapeLemmas::later_none))]
fn value_or_breach(found: &mut Option<Shape>, number: &Number, path: Text) -> i64
    ensures wrongs { found.new ≡ shapes.later found.old
        (shapes.unless (is_some (as_i64 (number_view number.now))) ShapeRule.BAD_NUMBER path) }
    ensures value { result ≡ unwrap_or (as_i64 (number_view number.now)) (pos 0) }
{
    match number.as_i64() {
        Some(value) => value,
        None => {
            tell(found, ShapeRule::BAD_NUMBER, path);
            0
        }
    }
}

fn pair(tree: &Tree) -> Option<(&Tree, &Tree)>
    ensures { option_map (λ two. (data_of two.0.now, data_of two.1.now)) result ≡ spec.pair (data_of tree.now) }
{
    two_of(tree.as_items()?)
}

fn two_of(trees: &[Tree]) -> Option<(&Tree, &Tree)>
    ensures { option_map (λ two. (data_of two.0.now, data_of two.1.now)) result ≡ spec.two_of (items_in trees.now) }
{
    match trees {
        [] => None,
        [_] => None,
        [first, second] => Some((first, second)),
        [_, _, _, ..] => None,
    }
}
