//! Manifests as they are written: JSON trees, the rules on their shape, and readers of their fields.
//!
//! Read `specs/Checks.antt` first: a table of fields is a list of rows, and what is wrong with a value is the
//! list of all its breaches in reading order, of which the first is told.
#![tactic(auto)]

mod am_spec;
mod fields;
mod forms;
mod head;
mod items;
mod kinds;
mod lists;
mod maps;
mod matching;
mod namespaces;
mod operator;
mod optional;
mod parts;
mod readers;
mod receiver;
mod reference;
mod route;
mod selector;
mod shape;
mod strays;
mod tree;

pub use am_spec::{AmSpec, noted_am_spec, read_am_spec};
pub use fields::{given, noted_flag, noted_number, noted_span, noted_text, number_within};
pub use forms::{
    AnyText, LabelName, NamespaceName, ObjectName, TagKey, TagValue, TextForm, note_worded,
    noted_worded, noted_worded_items, required_worded,
};
pub use head::{Head, key_of, note_object, noted_head};
pub use items::{Item, noted_items, or_none};
pub use kinds::kind_of;
pub use lists::read_items;
pub use maps::{noted_entries, noted_map};
pub use matching::InhibitRule;
pub use namespaces::NamespaceSelector;
pub use operator::Operator;
pub use optional::{above_zero, flag_or_false, needed_text, noted_texts, unless_empty};
pub use parts::{noted_item, required_item};
pub use readers::{flag_at, items_at, known, map_at, number_at, span_at, text_at, texts_at};
pub use receiver::{Receiver, Webhook, noted_receivers};
pub use reference::{SecretRef, noted_reference, required_reference, secret_at};
pub use route::{Route, read_route};
pub use selector::{noted_selector, required_selector, selector_at};
pub use shape::{Shape, ShapeFault, ShapeRule, path_at, path_to, tell};
pub use strays::{is_null, noted_known};
pub use tree::{Form, Tree, tree_from};
