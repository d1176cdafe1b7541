ghost use Rattle.std.specs.Prelude.{◌≡◌, is_some, unwrap_or};
ghost use Rattle.op_manifest.specs.Trees.{data_of};
ghost use Rattle.op_manifest.specs.Shapes.{Adds};
ghost use Rattle.op_manifest.specs.Shapes as shapes;
ghost use Rattle.op_manifest.specs.Checks as check;
ghost use Rattle.kind_scrape.specs.EndpointTables as spec;

use op_base::{NoMemory, Text};
use op_manifest::{Item, Shape, ShapeRule, Tree, noted_item, tell};
use std::alloc::Global;

/// How targets are reached.
#[derive(Clone, Copy, Debug, PartialEq, Eq)]
pub enum Scheme {
    Http,
    Https,
}

/// The scheme of the field, or `http`.
pub(crate) fn noted_scheme(
    found: &mut Option<Shape>,
    alloc: Global,
    tree: &Tree,
    name: &str,
    path: &str,
) -> Result<Scheme, NoMemory>
    ensures { Adds (λ scheme. scheme) found.old found.new result
        (check.optional spec.scheme name.now path.now (data_of tree.now)) (spec.scheme_in name.now (data_of tree.now)) }
{
    let scheme = noted_item::<Scheme>(found, alloc, tree, name, path)?;
    Ok(scheme.unwrap_or(Scheme::Http))
}

impl Item for Scheme {
    ghost use Rattle.kind_scrape.specs.EndpointTables as spec;

    ghost wrongs = { spec.scheme };

    ghost of = { spec.scheme_of };

    #[tactic(auto, using(op_manifest::proofs::ShapeLemmas::later_none), unfolding(op_manifest::specs::Checks::worded))]
    fn read(
        found: &mut Option<Shape>,
        alloc: Global,
        tree: &Tree,
        path: &str,
    ) -> Result<Scheme, NoMemory> {
        match tree.as_text() {
            Some(word) => choose(found, alloc, scheme_named(word), path),
            None => {
                tell(found, ShapeRule::WRONG_TYPE, Text::from_str(alloc, path)?);
                Ok(Scheme::Http)
            }
        }
    }
}

#[tactic(auto, unfolding(crate::specs::EndpointTables::scheme_named))]
fn scheme_named(word: &str) -> Option<Scheme>
    ensures { result ≡ spec.scheme_named word.now }
{
    match word {
        "http" => Some(Scheme::Http),
        "https" => Some(Scheme::Https),
        _ => None,
    }
}

#[tactic(auto, using(op_manifest::proofs::ShapeLemmas::later_none))]
fn choose(
    found: &mut Option<Shape>,
    alloc: Global,
    chosen: Option<Scheme>,
    path: &str,
) -> Result<Scheme, NoMemory>
    ensures { Adds (λ scheme. scheme) found.old found.new result
        (shapes.unless (is_some chosen) ShapeRule.BAD_CHOICE path.now) (unwrap_or chosen Scheme.Http) }
{
    match chosen {
        Some(scheme) => Ok(scheme),
        None => {
            tell(found, ShapeRule::BAD_CHOICE, Text::from_str(alloc, path)?);
            Ok(Scheme::Http)
        }
    }
}
