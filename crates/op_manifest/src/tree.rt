ghost use Rattle.std.specs.Prelude.{◌≡◌, ◌<◌, Some, map, option_map, slice_get, IfOk, length};
ghost use Rattle.std.specs.Option.{option_copied};
ghost use Rattle.serde_json.specs.View.{view, number_view};
ghost use Rattle.serde_json.specs.Find.{get, get_member, as_str, as_bool, as_number, as_array, as_object};
ghost use Rattle.op_manifest.specs.Trees as spec;
ghost use Rattle.op_manifest.specs.Trees.{data_of, form_of, items_in, members_in, name_of, named_parts, parts_of, text_of, whole_of};
ghost use Rattle.op_manifest.specs.Shapes.{ReadsBy};
ghost use Rattle.op_manifest.specs.Files as files;

use crate::shape::{Shape, ShapeFault, ShapeRule};
use op_base::{List, NoMemory, Text};
use op_json::read_json;
use serde_json::{Map, Number, Value};
use std::alloc::Global;
use std::cmp::Ordering;

/// A JSON value (RFC 8259). The fields of an object stand in the byte order of their names, each name once.
#[derive(Debug, Drop)]
pub enum Tree {
    Null,
    Flag(bool),
    Number(Number),
    Words(Text),
    Items(List<Tree>),
    Fields(List<(Text, Tree)>),
}

/// What a tree is. A number is `Whole` where 64 bits hold it as it is written, without fraction and exponent.
#[derive(Clone, Copy, Debug, PartialEq, Eq)]
pub enum Form {
    Null,
    Flag,
    Whole,
    Number,
    Words,
    Items,
    Fields,
}

impl Tree {
    /// The tree of the bytes, as `serde_json` reads them.
    #[tactic(auto, unfolding(crate::specs::Shapes::first))]
    pub fn read(alloc: Global, bytes: &[u8]) -> Result<Tree, ShapeFault>
        ensures { ReadsBy data_of result (files.json_wrongs bytes.now) (files.json_in bytes.now) }
    {
        match read_json(alloc, bytes)? {
            Some(value) => Ok(tree_from(alloc, &value)?),
            None => Err(ShapeFault::Broken(Shape {
                rule: ShapeRule::NOT_JSON,
                path: Text::new(alloc),
            })),
        }
    }

    /// An equal tree.
    pub fn copy(&self, alloc: Global) -> Result<Tree, NoMemory>
        ensures { IfOk result (λ tree. data_of tree ≡ data_of self.now) }
    {
        match self {
            Tree::Null => Ok(Tree::Null),
            Tree::Flag(flag) => Ok(Tree::Flag(*flag)),
            Tree::Number(number) => Ok(Tree::Number(*number)),
            Tree::Words(text) => Ok(Tree::Words(text.clone()?)),
            Tree::Items(trees) => {
                let mut items = List::new(alloc);
                for tree in trees.as_slice() {
                    items.push(tree.copy(alloc)?)?;
                }
                Ok(Tree::Items(items))
            }
            Tree::Fields(parts) => {
                let mut fields = List::new(alloc);
                for part in parts.as_slice() {
                    fields.push((part.0.clone()?, part.1.copy(alloc)?))?;
                }
                Ok(Tree::Fields(fields))
            }
        }
    }

    /// What it is.
    pub fn form(&self) -> Form
        ensures { result ≡ form_of (data_of self.now) }
    {
        match self {
            Tree::Null => Form::Null,
            Tree::Flag(_) => Form::Flag,
            Tree::Number(number) => form_of_number(number),
            Tree::Words(_) => Form::Words,
            Tree::Items(_) => Form::Items,
            Tree::Fields(_) => Form::Fields,
        }
    }

    /// The value of the object's field.
    pub fn field(&self, name: &str) -> Option<&Tree>
        ensures { option_map (λ tree. data_of tree.now) result ≡ get name.now (data_of self.now) }
    {
        match self.as_fields() {
            Some(fields) => field_in(fields, name),
            None => None,
        }
    }

    /// How many items or fields it has.
    #[tactic(auto, using(crate::proofs::TreeLemmas::len_of_items, crate::proofs::TreeLemmas::len_of_fields, crate::proofs::TreeLemmas::no_parts))]
    pub fn len(&self) -> usize
        ensures { result ≡ length (parts_of (data_of self.now)) }
    {
        match self.as_items() {
            Some(items) => items.len(),
            None => match self.as_fields() {
                Some(fields) => fields.len(),
                None => 0,
            },
        }
    }

    /// The name of the object's field at the place.
    pub fn name_at(&self, index: usize) -> &str
        requires form { form_of (data_of self.now) ≡ Form.Fields }
        requires index { index < length (parts_of (data_of self.now)) }
        ensures { slice_get (map name_of (named_parts (data_of self.now))) index ≡ Some result.now }
    {
        match self.name(index) {
            Some(name) => name,
            None => unreachable!(),
        }
    }

    /// The list's item, or the value of the object's field, at the place.
    pub fn at(&self, index: usize) -> &Tree
        requires { index < length (parts_of (data_of self.now)) }
        ensures { slice_get (parts_of (data_of self.now)) index ≡ Some (data_of result.now) }
    {
        match self.part(index) {
            Some(tree) => tree,
            None => unreachable!(),
        }
    }

    #[tactic(auto, using(crate::proofs::TreeLemmas::no_names))]
    fn name(&self, index: usize) -> Option<&str>
        ensures { option_map (λ name. name.now) result ≡ slice_get (map name_of (named_parts (data_of self.now))) index }
    {
        match self.as_fields() {
            Some(fields) => match item_at(fields, index) {
                Some(field) => Some(field.0.as_str()),
                None => None,
            },
            None => None,
        }
    }

    #[tactic(auto, using(crate::proofs::TreeLemmas::no_parts))]
    fn part(&self, index: usize) -> Option<&Tree>
        ensures { option_map (λ tree. data_of tree.now) result ≡ slice_get (parts_of (data_of self.now)) index }
    {
        match self.as_items() {
            Some(items) => match item_at(items, index) {
                Some(item) => Some(item),
                None => None,
            },
            None => match self.as_fields() {
                Some(fields) => match item_at(fields, index) {
                    Some(field) => Some(&field.1),
                    None => None,
                },
                None => None,
            },
        }
    }

    /// Its text, or the empty one where it is none.
    pub fn text(&self) -> &str
        ensures { result.now ≡ text_of (data_of self.now) }
    {
        match self.as_text() {
            Some(text) => text,
            None => "",
        }
    }

    /// The number that it is where it is whole, or 0.
    pub fn whole(&self) -> i128
        ensures { result ≡ whole_of (data_of self.now) }
    {
        match self.as_number() {
            Some(number) => match number.as_i128() {
                Some(whole) => whole,
                None => 0,
            },
            None => 0,
        }
    }

    /// Its text, where it is one.
    pub fn as_text(&self) -> Option<&str>
        ensures { option_map (λ text. text.now) result ≡ as_str (data_of self.now) }
    {
        match self {
            Tree::Words(text) => Some(text.as_str()),
            _ => None,
        }
    }

    /// Whether it is true, where it is true or false.
    pub fn as_flag(&self) -> Option<bool>
        ensures { result ≡ as_bool (data_of self.now) }
    {
        match self {
            Tree::Flag(flag) => Some(*flag),
            _ => None,
        }
    }

    /// Its number, where it is one.
    pub fn as_number(&self) -> Option<&Number>
        ensures { option_map (λ number. number_view number.now) result ≡ as_number (data_of self.now) }
    {
        match self {
            Tree::Number(number) => Some(number),
            _ => None,
        }
    }

    /// Its items, where it is a list.
    pub fn as_items(&self) -> Option<&[Tree]>
        ensures { option_map (λ items. items_in items.now) result ≡ as_array (data_of self.now) }
    {
        match self {
            Tree::Items(items) => Some(items.as_slice()),
            _ => None,
        }
    }

    /// Its fields, where it is an object.
    pub fn as_fields(&self) -> Option<&[(Text, Tree)]>
        ensures { option_map (λ fields. members_in fields.now) result ≡ as_object (data_of self.now) }
    {
        match self {
            Tree::Fields(fields) => Some(fields.as_slice()),
            _ => None,
        }
    }
}

fn item_at<T>(items: &[T], index: usize) -> Option<&T>
    ensures { option_copied result ≡ slice_get items.now index }
{
    items.get(index)
}

fn form_of_number(number: &Number) -> Form
    ensures { result ≡ spec.form_of_number (number_view number.now) }
{
    if number.is_f64() {
        Form::Number
    } else {
        Form::Whole
    }
}

fn field_in<'a>(fields: &'a [(Text, Tree)], name: &str) -> Option<&'a Tree>
    ensures { option_map (λ tree. data_of tree.now) result ≡ get_member name.now (members_in fields.now) }
{
    for field in fields {
        match name.cmp(field.0.as_str()) {
            Ordering::Equal => return Some(&field.1),
            _ => {}
        }
    }
    None
}

/// The tree of a value that `serde_json` read.
#[tactic(auto, using(crate::proofs::TreeLemmas::fields_are_members))]
pub fn tree_from(alloc: Global, value: &Value) -> Result<Tree, NoMemory>
    ensures { IfOk result (λ tree. data_of tree ≡ view value.now) }
{
    match value {
        Value::Null => Ok(Tree::Null),
        Value::Bool(flag) => Ok(Tree::Flag(*flag)),
        Value::Number(number) => Ok(Tree::Number(*number)),
        Value::String(text) => Ok(Tree::Words(Text::from_str(alloc, text.as_str())?)),
        Value::Array(values) => {
            let mut items = List::new(alloc);
            for value in values.as_slice() {
                items.push(tree_from(alloc, value)?)?;
            }
            Ok(Tree::Items(items))
        }
        Value::Object(members) => {
            let mut fields = List::new(alloc);
            for (name, value) in members {
                fields.push((
                    Text::from_str(alloc, name.as_str())?,
                    tree_from(alloc, value)?,
                ))?;
            }
            Ok(Tree::Fields(fields))
        }
    }
}
