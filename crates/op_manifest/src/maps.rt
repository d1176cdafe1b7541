// Maps of texts, entry by entry in the order of the keys: the key's form, the value's type, the value's form.
ghost use Rattle.std.specs.Prelude.{◌≡◌, ◌++◌, OnOk};
ghost use Rattle.op_base.specs.Maps.{text_cmp, put_all};
ghost use Rattle.op_manifest.specs.Trees.{data_of, members_in};
ghost use Rattle.op_manifest.specs.Shapes.{Adds};
ghost use Rattle.op_manifest.specs.Shapes as shapes;
ghost use Rattle.op_manifest.specs.Checks as check;
ghost use Rattle.op_manifest.specs.Maps as maps;

use crate::fields::{given, tell_unless};
use crate::forms::{TextForm, note_worded};
use crate::shape::{Shape, ShapeRule, path_to, tell};
use crate::tree::Tree;
use op_base::{NoMemory, Tags, Text};
use std::alloc::Global;

/// The map of the field, where it is there: keys of the form `K` with texts of the form `V`. An entry that is null is
/// no entry.
#[tactic(auto, using(crate::proofs::ShapeLemmas::later_none), unfolding(crate::specs::Checks::optional, crate::specs::Checks::keyed, crate::specs::Maps::map_in))]
pub fn noted_map<K: TextForm, V: TextForm>(
    found: &mut Option<Shape>,
    alloc: Global,
    tree: &Tree,
    name: &str,
    path: &str,
) -> Result<Option<Tags>, NoMemory>
    ensures { Adds (λ map. map) found.old found.new result
        (check.optional (maps.texts_by K.passes K.broken V.passes V.broken) name.now path.now (data_of tree.now))
        (maps.map_in name.now (data_of tree.now)) }
{
    match given(tree, name) {
        Some(value) => {
            let path = path_to(alloc, path, name)?;
            match value.as_fields() {
                Some(fields) => Ok(Some(read_entries::<K, V>(
                    found,
                    alloc,
                    fields,
                    path.as_str(),
                )?)),
                None => {
                    tell(found, ShapeRule::WRONG_TYPE, path);
                    Ok(None)
                }
            }
        }
        None => Ok(None),
    }
}

/// The map that the value is: keys of the form `K` with texts of the form `V`. An entry that is null is no entry, and
/// what is no object has none.
#[tactic(auto, unfolding(crate::specs::Checks::keyed, crate::specs::Maps::texts_of))]
pub fn noted_entries<K: TextForm, V: TextForm>(
    found: &mut Option<Shape>,
    alloc: Global,
    tree: &Tree,
    path: &str,
) -> Result<Tags, NoMemory>
    ensures { Adds (λ map. map) found.old found.new result
        (maps.texts_by K.passes K.broken V.passes V.broken path.now (data_of tree.now))
        (maps.texts_of (data_of tree.now)) }
{
    match tree.as_fields() {
        Some(fields) => read_entries::<K, V>(found, alloc, fields, path),
        None => {
            tell(found, ShapeRule::WRONG_TYPE, Text::from_str(alloc, path)?);
            Ok(Tags::new(alloc))
        }
    }
}

fn read_entries<K: TextForm, V: TextForm>(
    found: &mut Option<Shape>,
    alloc: Global,
    fields: &[(Text, Tree)],
    path: &str,
) -> Result<Tags, NoMemory>
    ensures { Adds (λ map. map) found.old found.new result
        (check.entries_wrongs K.passes K.broken (check.worded V.broken V.passes) path.now (members_in fields.now))
        (maps.map_of (members_in fields.now)) }
{
    let mut all = Tags::new(alloc);
    for field in fields {
        read_entry::<K, V>(found, alloc, &mut all, field.0.as_str(), &field.1, path)?;
    }
    Ok(all)
}

// An entry that is null is passed over.
#[tactic(auto, using(crate::proofs::ShapeLemmas::later_none))]
fn read_entry<K: TextForm, V: TextForm>(
    found: &mut Option<Shape>,
    alloc: Global,
    all: &mut Tags,
    key: &str,
    value: &Tree,
    path: &str,
) -> Result<(), NoMemory>
    ensures wrongs { OnOk result (found.new ≡ shapes.later found.old
        (check.entry_wrongs K.passes K.broken (check.worded V.broken V.passes) path.now key.now (data_of value.now))) }
    ensures map { OnOk result (all.new ≡ put_all text_cmp all.old (maps.entry_of key.now (data_of value.now))) }
{
    match value {
        Tree::Null => Ok(()),
        _ => {
            note_entry::<K, V>(found, alloc, key, value, path)?;
            put_text(all, key, value)
        }
    }
}

// The key's form comes before the value.
#[tactic(auto, using(crate::proofs::ShapeLemmas::later_both))]
fn note_entry<K: TextForm, V: TextForm>(
    found: &mut Option<Shape>,
    alloc: Global,
    key: &str,
    value: &Tree,
    path: &str,
) -> Result<(), NoMemory>
    ensures { OnOk result (found.new ≡ shapes.later found.old
        (shapes.unless (K.passes key.now) K.broken (shapes.path_to path.now key.now)
        ++ check.worded V.broken V.passes (shapes.path_to path.now key.now) (data_of value.now))) }
{
    tell_unless(found, alloc, K::passes(key), K::broken(), key, path)?;
    let path = path_to(alloc, path, key)?;
    note_worded::<V>(found, alloc, value, path.as_str())
}

// A value that is no text is no entry.
fn put_text(all: &mut Tags, key: &str, value: &Tree) -> Result<(), NoMemory>
    ensures { OnOk result (all.new ≡ put_all text_cmp all.old (maps.entry_of key.now (data_of value.now))) }
{
    match value.as_text() {
        Some(text) => all.set(key, text),
        None => Ok(()),
    }
}
