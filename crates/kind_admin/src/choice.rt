ghost use Rattle.std.specs.Prelude.{◌≡◌};
ghost use Rattle.op_manifest.specs.Shapes.{Adds};
ghost use Rattle.op_manifest.specs.Trees.{data_of};
ghost use Rattle.kind_admin.specs.Choices as spec;

use op_base::{NoMemory, Selector};
use op_manifest::{Shape, Tree, noted_selector};
use std::alloc::Global;

// Which objects of a kind are taken: by a selector on their labels, and one on those of their namespaces.
#[derive(Drop)]
pub(crate) struct Choice {
    pub(crate) objects: Option<Selector>,
    pub(crate) namespaces: Option<Selector>,
}

/// The selectors of the two fields.
#[tactic(auto, using(op_manifest::proofs::ShapeLemmas::later_both), unfolding(crate::specs::Choices::choice_wrongs))]
pub(crate) fn noted_choice(
    found: &mut Option<Shape>,
    alloc: Global,
    tree: &Tree,
    objects: &str,
    namespaces: &str,
    path: &str,
) -> Result<Choice, NoMemory>
    ensures { Adds (λ choice. choice) found.old found.new result
        (spec.choice_wrongs objects.now namespaces.now path.now (data_of tree.now))
        (spec.choice_in objects.now namespaces.now (data_of tree.now)) }
{
    let objects = noted_selector(found, alloc, tree, objects, path)?;
    let namespaces = noted_selector(found, alloc, tree, namespaces, path)?;
    Ok(Choice {
        objects,
        namespaces,
    })
}
