ghost use Rattle.std.specs.Prelude.{◌≡◌, ◌<◌, [], length, IfOk, OnOk, OnErr};
ghost use Rattle.std.specs.Option.{option_copied};
ghost use Rattle.std.specs.List.{list_all};
ghost use Rattle.op_base.specs.Maps.{IsMap, value_at, with_entry};
ghost use Rattle.op_base.specs.Labels.{name_in, text_in};
ghost use Rattle.op_base.specs.Tags as spec;

use crate::entries::{find, put};
use crate::entry::Entry;
use crate::memory::NoMemory;
use std::alloc::Global;
use std::marker::Model;

/// The labels of a Kubernetes object: a finite map from keys to texts that may be empty. Contracts
/// see its entries in the order of the keys. It keeps its allocator. A copy shares the
/// texts.
#[derive(Debug, Drop)]
pub struct Tags {
    entries: Vec<Entry>,
}

impl Model for Tags {
    ghost use Rattle.std.specs.Coded.{coded_list, coded_ℕ, coded×};
    ghost use Rattle.op_base.specs.Maps.{IsMap};
    ghost use Rattle.op_base.specs.Labels.{Texts};

    ghost Value = { Texts };

    ghost coded = { coded_list (coded× (coded_list coded_ℕ) (coded_list coded_ℕ)) };

    ghost view = { λ tags. tags.entries.items };

    ghost invariant = { λ tags. IsMap tags.entries.items };
}

/// Whether the text is the key of a tag: 1 to 317 letters, digits, `.`, `/`, `_` and `-`.
pub fn is_tag_key(text: &str) -> bool
    ensures { result ≡ spec.is_tag_key text.now }
{
    let bytes = text.as_bytes();
    1 <= bytes.len() && bytes.len() <= 317 && all_key_bytes(bytes)
}

/// Whether the text is the value of a tag: at most 63 letters, digits, `.`, `_` and `-`.
pub fn is_tag_value(text: &str) -> bool
    ensures { result ≡ spec.is_tag_value text.now }
{
    let bytes = text.as_bytes();
    bytes.len() <= 63 && all_value_bytes(bytes)
}

fn all_key_bytes(bytes: &[u8]) -> bool
    ensures { result ≡ list_all spec.is_key_byte bytes.now }
{
    bytes.iter().all(|b| is_key_byte(*b))
}

fn all_value_bytes(bytes: &[u8]) -> bool
    ensures { result ≡ list_all spec.is_value_byte bytes.now }
{
    bytes.iter().all(|b| is_value_byte(*b))
}

fn is_key_byte(b: u8) -> bool
    ensures { result ≡ spec.is_key_byte b }
{
    is_value_byte(b) || b == b'/'
}

fn is_value_byte(b: u8) -> bool
    ensures { result ≡ spec.is_value_byte b }
{
    b.is_ascii_alphanumeric() || b == b'.' || b == b'_' || b == b'-'
}

impl Tags {
    /// No tags.
    pub fn new(alloc: Global) -> Tags
        ensures { result ≡ [] }
    {
        Tags {
            entries: Vec::new(alloc),
        }
    }

    pub fn len(&self) -> usize
        ensures len { result ≡ length self.now }
        ensures sorted { IsMap self.now }
    {
        self.entries.len()
    }

    pub(crate) fn as_slice(&self) -> &[Entry]
        ensures { result.now ≡ self.now }
    {
        self.entries.as_slice()
    }

    /// The text at the key.
    pub fn get(&self, key: &str) -> Option<&str>
        ensures value { option_copied result ≡ value_at self.now key.now }
        ensures sorted { IsMap self.now }
    {
        find(self.entries.as_slice(), key)
    }

    /// Puts the text at the key, in place of any that stood there.
    pub fn set(&mut self, key: &str, value: &str) -> Result<(), NoMemory>
        ensures ok { OnOk result (self.new ≡ with_entry self.old key.now value.now) }
        ensures err { OnErr result (self.new ≡ self.old) }
    {
        let entry = Entry::new(*self.entries.allocator(), key, value)?;
        put(&mut self.entries, entry)
    }

    /// The key at the place `index` in the order of keys.
    pub fn name_at(&self, index: usize) -> &str
        requires { index < length self.now }
        ensures { result.now ≡ name_in self.now index }
    {
        self.entries[index].name()
    }

    /// The text at the place `index` in the order of keys.
    pub fn value_at(&self, index: usize) -> &str
        requires { index < length self.now }
        ensures { result.now ≡ text_in self.now index }
    {
        self.entries[index].text()
    }

    /// Equal tags.
    pub fn copy(&self) -> Result<Tags, NoMemory>
        ensures { IfOk result (λ tags. tags ≡ self.now) }
    {
        Ok(Tags {
            entries: self.entries.clone()?,
        })
    }
}

impl PartialEq for Tags {
    ghost use Rattle.std.specs.Cmp.Lexicographic.{pointwise};
    ghost use Rattle.std.specs.Cmp.Rules.{comparing};
    ghost use Rattle.std.proofs.Common.{rules};
    ghost use Rattle.op_base.specs.Labels.{entry_eq};

    ghost eq = { pointwise entry_eq };

    ghost laws = { Prim.search (comparing, rules) };

    fn eq(&self, other: &Tags) -> bool {
        self.entries == other.entries
    }
}

impl Eq for Tags {
    ghost use Rattle.std.specs.Cmp.Rules.{comparing};
    ghost use Rattle.std.proofs.Common.{rules};

    ghost laws = { Prim.search (comparing, rules) };
}
