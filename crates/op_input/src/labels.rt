// The labels of a sample.
ghost use Rattle.std.specs.Prelude.{◌≡◌, OnOk};
ghost use Rattle.op_manifest.specs.Trees.{data_of};
ghost use Rattle.op_manifest.specs.Shapes.{Adds};
ghost use Rattle.op_manifest.specs.Shapes as shapes;
ghost use Rattle.op_manifest.specs.Checks as check;
ghost use Rattle.op_input.specs.Samples as spec;

use op_base::{Labels, METRIC_NAME, NoMemory, Text, is_label_name, is_metric_name};
use op_manifest::{
    AnyText, Shape, ShapeRule, TextForm, Tree, given, note_object, noted_entries, path_to, tell,
};
use std::alloc::Global;

// The name of a label of a sample: the metric's name, or a label name that doesn't begin with `__`.
struct SampleLabel;

impl TextForm for SampleLabel {
    ghost use Rattle.op_manifest.specs.declared.shape.TheConstants.ShapeRule as rule;
    ghost use Rattle.op_input.specs.Samples as spec;

    ghost passes = { spec.is_sample_label };

    ghost broken = { rule.BAD_LABEL };

    fn passes(text: &str) -> bool {
        text == METRIC_NAME || is_plain_label(text)
    }

    fn broken() -> ShapeRule {
        ShapeRule::BAD_LABEL
    }
}

fn is_plain_label(name: &str) -> bool
    ensures { result ≡ spec.is_plain_label name.now }
{
    is_label_name(name) && !name.as_bytes().starts_with(b"__")
}

/// The labels that the value is. The metric's name comes before the others.
#[tactic(auto, using(op_manifest::proofs::ShapeLemmas::later_both))]
pub fn noted_labels(
    found: &mut Option<Shape>,
    alloc: Global,
    tree: &Tree,
    path: &str,
) -> Result<Labels, NoMemory>
    ensures { Adds (λ labels. labels) found.old found.new result
        (spec.labels path.now (data_of tree.now)) (spec.labels_of (data_of tree.now)) }
{
    note_object(found, alloc, tree, path)?;
    note_metric(found, alloc, tree, path)?;
    let texts = noted_entries::<SampleLabel, AnyText>(found, alloc, tree, path)?;
    let mut labels = Labels::new(alloc);
    labels.set_all(&texts)?;
    Ok(labels)
}

#[tactic(auto, unfolding(op_manifest::specs::Checks::required))]
fn note_metric(
    found: &mut Option<Shape>,
    alloc: Global,
    tree: &Tree,
    path: &str,
) -> Result<(), NoMemory>
    ensures { OnOk result (found.new ≡ shapes.later found.old
        (check.required spec.metric METRIC_NAME.now path.now (data_of tree.now))) }
{
    let path = path_to(alloc, path, METRIC_NAME)?;
    match given(tree, METRIC_NAME) {
        Some(value) => {
            note_metric_text(found, value, path);
            Ok(())
        }
        None => {
            tell(found, ShapeRule::MISSING, path);
            Ok(())
        }
    }
}

#[tactic(auto, unfolding(crate::specs::Samples::metric))]
fn note_metric_text(found: &mut Option<Shape>, tree: &Tree, path: Text)
    ensures { found.new ≡ shapes.later found.old (spec.metric path (data_of tree.now)) }
{
    match tree.as_text() {
        Some(name) => note_metric_name(found, name, path),
        None => tell(found, ShapeRule::WRONG_TYPE, path),
    }
}

#[tactic(auto, using(op_manifest::proofs::ShapeLemmas::later_none))]
fn note_metric_name(found: &mut Option<Shape>, name: &str, path: Text)
    ensures { found.new ≡ shapes.later found.old (spec.name_wrongs path name.now) }
{
    if name.is_empty() {
        tell(found, ShapeRule::MISSING, path);
    } else if !is_metric_name(name) {
        tell(found, ShapeRule::BAD_LABEL, path);
    }
}
