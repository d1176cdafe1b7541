ghost use Rattle.std.specs.Prelude.{◌≡◌, is_some, unwrap_or};
ghost use Rattle.op_manifest.specs.Shapes.{Adds};
ghost use Rattle.op_manifest.specs.Shapes as shapes;
ghost use Rattle.op_manifest.specs.Selectors as spec;

use crate::items::Item;
use crate::shape::{Shape, ShapeRule, tell};
use crate::tree::Tree;
use op_base::{NoMemory, Text};
use std::alloc::Global;

/// What an expression of a label selector asks of a key.
#[derive(Clone, Copy, Debug, PartialEq, Eq)]
pub enum Operator {
    In,
    NotIn,
    Exists,
    DoesNotExist,
}

#[tactic(auto, unfolding(crate::specs::Selectors::operator_named))]
fn operator_named(word: &str) -> Option<Operator>
    ensures { result ≡ spec.operator_named word.now }
{
    match word {
        "In" => Some(Operator::In),
        "NotIn" => Some(Operator::NotIn),
        "Exists" => Some(Operator::Exists),
        "DoesNotExist" => Some(Operator::DoesNotExist),
        _ => None,
    }
}

impl Item for Operator {
    ghost use Rattle.op_manifest.specs.Selectors as spec;

    ghost wrongs = { spec.operator };

    ghost of = { spec.operator_of };

    #[tactic(auto, using(crate::proofs::ShapeLemmas::later_none), unfolding(crate::specs::Checks::worded))]
    fn read(
        found: &mut Option<Shape>,
        alloc: Global,
        tree: &Tree,
        path: &str,
    ) -> Result<Operator, NoMemory> {
        match tree.as_text() {
            Some(word) => choose(found, alloc, operator_named(word), path),
            None => {
                tell(found, ShapeRule::WRONG_TYPE, Text::from_str(alloc, path)?);
                Ok(Operator::Exists)
            }
        }
    }
}

#[tactic(auto, using(crate::proofs::ShapeLemmas::later_none))]
fn choose(
    found: &mut Option<Shape>,
    alloc: Global,
    chosen: Option<Operator>,
    path: &str,
) -> Result<Operator, NoMemory>
    ensures { Adds (λ operator. operator) found.old found.new result
        (shapes.unless (is_some chosen) ShapeRule.BAD_CHOICE path.now) (unwrap_or chosen Operator.Exists) }
{
    match chosen {
        Some(operator) => Ok(operator),
        None => {
            tell(found, ShapeRule::BAD_CHOICE, Text::from_str(alloc, path)?);
            Ok(Operator::Exists)
        }
    }
}
