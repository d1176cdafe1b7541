ghost use Rattle.std.specs.Prelude.{◌≡◌, OnOk};
ghost use Rattle.op_manifest.specs.Checks.{rows_wrongs};
ghost use Rattle.op_manifest.specs.Shapes.{Adds};
ghost use Rattle.op_manifest.specs.Shapes as shapes;
ghost use Rattle.op_manifest.specs.Trees.{data_of};
ghost use Rattle.kind_admin.specs.PrometheusTables as spec;

use crate::exclusion::Exclusion;
use crate::file_access::FileAccess;
use op_base::{List, NoMemory, Text, is_label_name};
use op_manifest::{
    Shape, ShapeRule, TextForm, Tree, flag_or_false, noted_item, noted_items, noted_number,
    noted_worded, or_none, path_to, tell, unless_empty,
};
use std::alloc::Global;

// What is enforced upon tenants.
#[derive(Drop)]
pub(crate) struct Enforcing {
    pub(crate) namespace_label: Option<Text>,
    pub(crate) label_error_on_replace: bool,
    pub(crate) ignore_namespace_selectors: bool,
    pub(crate) override_honor_labels: bool,
    pub(crate) file_access: Option<FileAccess>,
    pub(crate) sample_limit: Option<u64>,
    pub(crate) excluded: List<Exclusion>,
}

pub(crate) struct EnforcedLabel;

impl TextForm for EnforcedLabel {
    ghost use Rattle.op_manifest.specs.declared.shape.TheConstants.ShapeRule as rule;
    ghost use Rattle.kind_admin.specs.PrometheusTables as spec;

    ghost passes = { spec.is_enforced_label };

    ghost broken = { rule.BAD_LABEL };

    fn passes(text: &str) -> bool {
        text.is_empty() || (is_label_name(text) && !text.as_bytes().starts_with(b"__"))
    }

    fn broken() -> ShapeRule {
        ShapeRule::BAD_LABEL
    }
}

/// What is enforced upon tenants.
pub(crate) fn noted_enforcing(
    found: &mut Option<Shape>,
    alloc: Global,
    tree: &Tree,
    path: &str,
) -> Result<Enforcing, NoMemory>
    ensures { Adds (λ enforcing. enforcing) found.old found.new result
        (rows_wrongs spec.enforcing_rows path.now (data_of tree.now)) (spec.enforcing_of (data_of tree.now)) }
{
    let label = noted_worded::<EnforcedLabel>(found, alloc, tree, "enforcedNamespaceLabel", path)?;
    let strict = flag_or_false(found, alloc, tree, "enforcedLabelErrorOnReplace", path)?;
    let ignore = flag_or_false(found, alloc, tree, "ignoreNamespaceSelectors", path)?;
    let honor = flag_or_false(found, alloc, tree, "overrideHonorLabels", path)?;
    let file_access = noted_item(found, alloc, tree, "arbitraryFSAccessThroughSMs", path)?;
    let sample_limit = noted_number(found, alloc, tree, "enforcedSampleLimit", path)?;
    let excluded = noted_items(found, alloc, tree, "excludedFromEnforcement", path)?;
    note_one_shard(found, alloc, tree, "shards", path)?;
    Ok(Enforcing {
        namespace_label: unless_empty(label),
        label_error_on_replace: strict,
        ignore_namespace_selectors: ignore,
        override_honor_labels: honor,
        file_access,
        sample_limit,
        excluded: or_none(alloc, excluded),
    })
}

// The number of shards is read, and then has to be 1.
#[tactic(auto, using(op_manifest::proofs::ShapeLemmas::later_both), unfolding(crate::specs::PrometheusTables::one_shard))]
fn note_one_shard(
    found: &mut Option<Shape>,
    alloc: Global,
    tree: &Tree,
    name: &str,
    path: &str,
) -> Result<(), NoMemory>
    ensures { OnOk result (found.new ≡ shapes.later found.old (spec.one_shard name.now path.now (data_of tree.now))) }
{
    let count = noted_number(found, alloc, tree, name, path)?;
    tell_unless_one(found, alloc, count, name, path)
}

#[tactic(auto, using(op_manifest::proofs::ShapeLemmas::later_none))]
fn tell_unless_one(
    found: &mut Option<Shape>,
    alloc: Global,
    count: Option<u64>,
    name: &str,
    path: &str,
) -> Result<(), NoMemory>
    ensures { OnOk result (found.new ≡ shapes.later found.old
        (shapes.unless (spec.is_one count) ShapeRule.BAD_CHOICE (shapes.path_to path.now name.now))) }
{
    if !is_one(count) {
        tell(found, ShapeRule::BAD_CHOICE, path_to(alloc, path, name)?);
    }
    Ok(())
}

fn is_one(count: Option<u64>) -> bool
    ensures { result ≡ spec.is_one count }
{
    match count {
        Some(count) => count == 1,
        None => true,
    }
}
