// Texts in base64, and the bytes that they stand for.
ghost use Rattle.std.specs.Prelude.{◌≡◌, ◌∷◌, [], IfOk, OnOk};
ghost use Rattle.op_base.specs.Maps.{text_cmp, put_all};
ghost use Rattle.kind_admin.specs.Secrets as spec;

use base64::DecodeAllocError;
use base64::engine::general_purpose::STANDARD;
use op_base::{List, NoMemory, Table, Tags, Text};
use std::alloc::Global;

/// The bytes that the text stands for, where it is in base64.
#[tactic(auto, unfolding(base64::specs::GeneralPurpose::decoded_of))]
pub(crate) fn decoded(alloc: Global, text: &str) -> Result<Option<List<u8>>, NoMemory>
    ensures { IfOk result (λ bytes. bytes ≡ spec.bytes_of text.now) }
{
    match STANDARD.decode(alloc, text.as_bytes()) {
        Ok(bytes) => Ok(Some(List::from_vec(bytes))),
        Err(DecodeAllocError::DecodeError(_)) => Ok(None),
        Err(DecodeAllocError::OutOfMemory) => Err(NoMemory),
    }
}

/// Puts the entries whose texts are in base64, with their bytes.
pub(crate) fn put_decoded(
    all: &mut Table<List<u8>>,
    alloc: Global,
    entries: &Tags,
) -> Result<(), NoMemory>
    ensures { OnOk result (all.new ≡ put_all text_cmp all.old (spec.decoded_entries entries.now)) }
{
    for index in 0..entries.len() {
        put_one(all, alloc, entries.name_at(index), entries.value_at(index))?;
    }
    Ok(())
}

fn put_one(all: &mut Table<List<u8>>, alloc: Global, key: &str, text: &str) -> Result<(), NoMemory>
    ensures { OnOk result (all.new ≡ put_all text_cmp all.old (spec.decoded_entry (key.now, text.now))) }
{
    match decoded(alloc, text)? {
        Some(bytes) => all.insert(Text::from_str(alloc, key)?, bytes),
        None => Ok(()),
    }
}

/// Puts the entries with the bytes of their texts.
pub(crate) fn put_texts(
    all: &mut Table<List<u8>>,
    alloc: Global,
    entries: &Tags,
) -> Result<(), NoMemory>
    ensures { OnOk result (all.new ≡ put_all text_cmp all.old entries.now) }
{
    for index in 0..entries.len() {
        put_text(all, alloc, entries.name_at(index), entries.value_at(index))?;
    }
    Ok(())
}

fn put_text(all: &mut Table<List<u8>>, alloc: Global, key: &str, text: &str) -> Result<(), NoMemory>
    ensures { OnOk result (all.new ≡ put_all text_cmp all.old ((key.now, text.now) ∷ [])) }
{
    let mut bytes = Vec::new(alloc);
    bytes.extend_from_slice(text.as_bytes())?;
    all.insert(Text::from_str(alloc, key)?, List::from_vec(bytes))
}
