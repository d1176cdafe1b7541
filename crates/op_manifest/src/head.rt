// The head of a manifest.
ghost use Rattle.std.specs.Prelude.{◌≡◌, [], IfOk, OnOk, codes, unwrap_or};
ghost use Rattle.op_manifest.specs.Trees.{data_of};
ghost use Rattle.op_manifest.specs.Shapes.{Adds, ReadsBy};
ghost use Rattle.op_manifest.specs.Shapes as shapes;
ghost use Rattle.op_manifest.specs.Checks as check;
ghost use Rattle.op_manifest.specs.Maps as maps;
ghost use Rattle.op_manifest.specs.Values as value;
ghost use Rattle.op_manifest.specs.Heads as spec;

use crate::fields::given;
use crate::forms::{NamespaceName, ObjectName, TagKey, TagValue, noted_worded, required_worded};
use crate::kinds::noted_kind;
use crate::maps::noted_map;
use crate::shape::{Shape, ShapeFault, ShapeRule, tell};
use crate::strays::noted_known;
use crate::tree::Tree;
use op_base::{Key, Kind, NoMemory, Tags, Text};
use std::alloc::Global;

/// What every manifest has: the key that names the object, and its labels.
#[derive(Debug, PartialEq, Eq, Drop)]
pub struct Head {
    pub key: Key,
    pub tags: Tags,
}

/// The key of the object: kind, namespace and name.
#[tactic(auto, using(crate::proofs::ShapeLemmas::later_first))]
pub fn key_of(alloc: Global, tree: &Tree) -> Result<Key, ShapeFault>
    ensures { ReadsBy (λ key. key) result (spec.key_wrongs [] (data_of tree.now)) (spec.key_of (data_of tree.now)) }
{
    let mut found = None;
    let key = noted_key(&mut found, alloc, tree)?;
    match found {
        Some(shape) => Err(ShapeFault::Broken(shape)),
        None => Ok(key),
    }
}

/// The head: what names the object, its labels, and no other field of the manifest than its kind has.
#[tactic(auto, using(crate::proofs::ShapeLemmas::later_both))]
pub fn noted_head(found: &mut Option<Shape>, alloc: Global, tree: &Tree) -> Result<Head, NoMemory>
    ensures { Adds (λ head. head) found.old found.new result
        (spec.head_wrongs [] (data_of tree.now)) (spec.head_of (data_of tree.now)) }
{
    let key = noted_key(found, alloc, tree)?;
    let tags = noted_tags(found, alloc, tree)?;
    note_fields(found, alloc, tree, key.kind)?;
    Ok(Head { key, tags })
}

#[tactic(auto, using(crate::proofs::ShapeLemmas::later_both))]
fn noted_key(found: &mut Option<Shape>, alloc: Global, tree: &Tree) -> Result<Key, NoMemory>
    ensures { Adds (λ key. key) found.old found.new result
        (spec.key_wrongs [] (data_of tree.now)) (spec.key_of (data_of tree.now)) }
{
    note_object(found, alloc, tree, "")?;
    let kind = noted_kind(found, alloc, tree)?;
    noted_metadata(found, alloc, tree, kind)
}

#[tactic(auto, unfolding(crate::specs::Checks::required))]
fn noted_metadata(
    found: &mut Option<Shape>,
    alloc: Global,
    tree: &Tree,
    kind: Kind,
) -> Result<Key, NoMemory>
    ensures { Adds (λ key. key) found.old found.new result
        (check.required (spec.metadata kind) (codes "metadata") [] (data_of tree.now))
        (spec.key_in kind (spec.metadata_of (data_of tree.now))) }
{
    match given(tree, "metadata") {
        Some(metadata) => read_key(found, alloc, metadata, kind),
        None => {
            tell(
                found,
                ShapeRule::MISSING,
                Text::from_str(alloc, "metadata")?,
            );
            read_key(&mut None, alloc, &Tree::Null, kind)
        }
    }
}

#[tactic(auto, using(crate::proofs::ShapeLemmas::later_both))]
fn read_key(
    found: &mut Option<Shape>,
    alloc: Global,
    metadata: &Tree,
    kind: Kind,
) -> Result<Key, NoMemory>
    ensures { Adds (λ key. key) found.old found.new result
        (spec.metadata kind (codes "metadata") (data_of metadata.now)) (spec.key_in kind (data_of metadata.now)) }
{
    note_object(found, alloc, metadata, "metadata")?;
    let namespace = noted_namespace(found, alloc, metadata, kind)?;
    let name = required_worded::<ObjectName>(found, alloc, metadata, "name", "metadata")?;
    Ok(Key {
        kind,
        namespace,
        name: text_or(alloc, name, "")?,
    })
}

#[tactic(auto, using(crate::proofs::ShapeLemmas::later_none))]
fn noted_namespace(
    found: &mut Option<Shape>,
    alloc: Global,
    metadata: &Tree,
    kind: Kind,
) -> Result<Text, NoMemory>
    ensures { Adds (λ namespace. namespace) found.old found.new result
        (spec.namespace_wrongs kind (codes "metadata") (data_of metadata.now))
        (spec.namespace_in kind (data_of metadata.now)) }
{
    if is_namespaced(kind) {
        let namespace = noted_worded::<NamespaceName>(
            found,
            alloc,
            metadata,
            "namespace",
            "metadata",
        )?;
        text_or(alloc, namespace, "default")
    } else {
        Ok(Text::new(alloc))
    }
}

#[tactic(auto, using(crate::proofs::ShapeLemmas::later_none))]
fn noted_tags(found: &mut Option<Shape>, alloc: Global, tree: &Tree) -> Result<Tags, NoMemory>
    ensures { Adds (λ tags. tags) found.old found.new result
        (spec.tags_wrongs [] (data_of tree.now)) (spec.tags_of (data_of tree.now)) }
{
    match given(tree, "metadata") {
        Some(metadata) => read_tags(found, alloc, metadata),
        None => read_tags(found, alloc, &Tree::Null),
    }
}

fn read_tags(found: &mut Option<Shape>, alloc: Global, metadata: &Tree) -> Result<Tags, NoMemory>
    ensures { Adds (λ tags. tags) found.old found.new result
        (check.optional maps.tags (codes "labels") (codes "metadata") (data_of metadata.now))
        (unwrap_or (maps.map_in (codes "labels") (data_of metadata.now)) []) }
{
    match noted_map::<TagKey, TagValue>(found, alloc, metadata, "labels", "metadata")? {
        Some(tags) => Ok(tags),
        None => Ok(Tags::new(alloc)),
    }
}

fn note_fields(
    found: &mut Option<Shape>,
    alloc: Global,
    tree: &Tree,
    kind: Kind,
) -> Result<(), NoMemory>
    ensures { OnOk result (found.new ≡ shapes.later found.old (check.known (spec.fields_of kind) [] (data_of tree.now))) }
{
    if is_secret(kind) {
        let names = [
            "apiVersion",
            "data",
            "immutable",
            "kind",
            "metadata",
            "status",
            "stringData",
            "type",
        ];
        noted_known(found, alloc, tree, &names, "")
    } else {
        let names = ["apiVersion", "kind", "metadata", "spec", "status"];
        noted_known(found, alloc, tree, &names, "")
    }
}

/// Notes a value that is no object.
#[tactic(auto, using(crate::proofs::ShapeLemmas::later_none), unfolding(crate::specs::Heads::object))]
pub fn note_object(
    found: &mut Option<Shape>,
    alloc: Global,
    tree: &Tree,
    path: &str,
) -> Result<(), NoMemory>
    ensures { OnOk result (found.new ≡ shapes.later found.old (spec.object path.now (data_of tree.now))) }
{
    match tree.as_fields() {
        Some(_) => Ok(()),
        None => {
            tell(found, ShapeRule::WRONG_TYPE, Text::from_str(alloc, path)?);
            Ok(())
        }
    }
}

// The text, or another one where it isn't there.
fn text_or(alloc: Global, text: Option<Text>, other: &str) -> Result<Text, NoMemory>
    ensures { IfOk result (λ t. t ≡ unwrap_or text other.now) }
{
    match text {
        Some(text) => Ok(text),
        None => Text::from_str(alloc, other),
    }
}

fn is_namespaced(kind: Kind) -> bool
    ensures { result ≡ spec.is_namespaced kind }
{
    match kind {
        Kind::Namespace => false,
        _ => true,
    }
}

fn is_secret(kind: Kind) -> bool
    ensures { result ≡ spec.is_secret kind }
{
    match kind {
        Kind::Secret => true,
        _ => false,
    }
}
