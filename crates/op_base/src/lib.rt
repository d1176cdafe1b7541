//! The types that every other crate speaks of: owned texts and lists, finite maps, names, object
//! keys and the step counter.
//!
//! Contracts see a [`Text`] as the list of its bytes, a [`List`] as the list of its items, an
//! [`OrderedMap`] and a [`Table`] as their entries in the order of their keys. Read `specs/Maps.antt` and
//! `specs/Names.antt` first.
#![tactic(auto)]

mod entries;
mod entry;
mod key;
mod kind;
mod label_names;
mod labels;
mod list;
mod matcher;
mod memory;
mod moment;
mod names;
mod ordered_map;
mod pattern;
mod prepared;
mod selector;
mod span;
mod spare;
mod steps;
mod table;
mod tags;
mod template;
mod text;

pub use key::Key;
pub use kind::Kind;
pub use label_names::{METRIC_NAME, NAMESPACE_LABEL};
pub use labels::Labels;
pub use list::{List, behind};
pub use matcher::{MatchFault, MatchOp, Matcher};
pub use memory::NoMemory;
pub use moment::{LAST_MOMENT, Moment};
pub use names::{is_label_name, is_metric_name, is_name, is_namespace};
pub use ordered_map::{OrderedMap, in_order};
pub use pattern::{Pattern, PatternFault};
pub use prepared::PreparedMatcher;
pub use selector::{Requirement, Selector};
pub use span::{Span, SpanFault, read_span, span_text};
pub use spare::{Spare, insert_with};
pub use steps::Steps;
pub use table::Table;
pub use tags::{Tags, is_tag_key, is_tag_value};
pub use text::Text;
