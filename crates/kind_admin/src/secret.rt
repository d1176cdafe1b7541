ghost use Rattle.std.specs.Prelude.{◌≡◌, ◌++◌, [], Some, codes, unwrap_or, IfOk};
ghost use Rattle.op_base.specs.declared.kind.Kind.TheVariants as kind;
ghost use Rattle.op_base.specs.Maps.{text_cmp, in_order};
ghost use Rattle.op_manifest.specs.Checks.{rows_wrongs, optional};
ghost use Rattle.op_manifest.specs.Heads.{kind_in};
ghost use Rattle.op_manifest.specs.Maps.{map_in, texts};
ghost use Rattle.op_manifest.specs.Shapes.{Adds, ReadsBy};
ghost use Rattle.op_manifest.specs.Trees.{data_of};
ghost use Rattle.kind_admin.specs.Secrets as spec;

use crate::decoded::{put_decoded, put_texts};
use crate::noted_data::note_encoded;
use op_base::{Key, List, NoMemory, Table, Tags};
use op_manifest::{AnyText, Shape, ShapeFault, Tree, noted_head, noted_map};
use std::alloc::Global;

/// A Secret: the bytes at each of its keys.
#[derive(Debug, Drop)]
pub struct Secret {
    pub key: Key,
    pub tags: Tags,
    pub by_key: Table<List<u8>>,
}

/// Reads a manifest of the kind Secret. `Broken` tells the first rule on shape that it breaks.
#[tactic(auto, using(op_manifest::proofs::ShapeLemmas::later_first))]
pub fn read_secret(alloc: Global, tree: &Tree) -> Result<Secret, ShapeFault>
    requires { kind_in (data_of tree.now) ≡ Some kind.Secret }
    ensures { ReadsBy (λ secret. secret) result (spec.secret_wrongs (data_of tree.now)) (spec.secret_of (data_of tree.now)) }
{
    let mut found = None;
    let secret = noted_secret(&mut found, alloc, tree)?;
    match found {
        Some(shape) => Err(ShapeFault::Broken(shape)),
        None => Ok(secret),
    }
}

#[tactic(auto, using(op_manifest::proofs::ShapeLemmas::later_both))]
fn noted_secret(found: &mut Option<Shape>, alloc: Global, tree: &Tree) -> Result<Secret, NoMemory>
    ensures { Adds (λ secret. secret) found.old found.new result
        (spec.secret_wrongs (data_of tree.now)) (spec.secret_of (data_of tree.now)) }
{
    let head = noted_head(found, alloc, tree)?;
    let by_key = noted_by_key(found, alloc, tree)?;
    Ok(Secret {
        key: head.key,
        tags: head.tags,
        by_key,
    })
}

fn noted_by_key(
    found: &mut Option<Shape>,
    alloc: Global,
    tree: &Tree,
) -> Result<Table<List<u8>>, NoMemory>
    ensures { Adds (λ by_key. by_key) found.old found.new result
        (rows_wrongs spec.secret_rows [] (data_of tree.now)) (spec.by_key_of (data_of tree.now)) }
{
    note_encoded(found, alloc, tree, "data", "")?;
    let strings = noted_strings(found, alloc, tree)?;
    let encoded = encoded_in(alloc, tree)?;
    let by_key = put_together(alloc, &encoded, &strings)?;
    Ok(by_key)
}

// The texts in base64, with what is wrong with them passed over.
fn encoded_in(alloc: Global, tree: &Tree) -> Result<Tags, NoMemory>
    ensures { IfOk result (λ texts. texts ≡ unwrap_or (map_in (codes "data") (data_of tree.now)) []) }
{
    match noted_map::<AnyText, AnyText>(&mut None, alloc, tree, "data", "")? {
        Some(encoded) => Ok(encoded),
        None => Ok(Tags::new(alloc)),
    }
}

fn noted_strings(found: &mut Option<Shape>, alloc: Global, tree: &Tree) -> Result<Tags, NoMemory>
    ensures { Adds (λ strings. strings) found.old found.new result
        (optional texts (codes "stringData") [] (data_of tree.now))
        (unwrap_or (map_in (codes "stringData") (data_of tree.now)) []) }
{
    match noted_map::<AnyText, AnyText>(found, alloc, tree, "stringData", "")? {
        Some(strings) => Ok(strings),
        None => Ok(Tags::new(alloc)),
    }
}

fn put_together(alloc: Global, encoded: &Tags, strings: &Tags) -> Result<Table<List<u8>>, NoMemory>
    ensures { IfOk result (λ by_key. by_key ≡ in_order text_cmp (spec.decoded_entries encoded.now ++ strings.now)) }
{
    let mut by_key = Table::new(alloc);
    put_decoded(&mut by_key, alloc, encoded)?;
    put_texts(&mut by_key, alloc, strings)?;
    Ok(by_key)
}
