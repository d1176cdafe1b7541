use crate::tables::{misfit, said};
use crate::trouble::Trouble;
use op_base::{
    Text, is_label_name, is_metric_name, is_name, is_namespace, is_tag_key, is_tag_value,
};
use ql_tree::is_reserved;
use std::alloc::Global;

/// Of the kind of name and a text: whether it is one.
pub fn found(alloc: Global, given: &[Text]) -> Result<Text, Trouble> {
    match given {
        [kind, text] => {
            let is_one = is_of_kind(kind.as_str(), text.as_str())?;
            Ok(said(alloc, if is_one { "yes" } else { "no" }, "")?)
        }
        _ => misfit(),
    }
}

fn is_of_kind(kind: &str, text: &str) -> Result<bool, Trouble> {
    match kind {
        "label" => Ok(is_label_name(text)),
        "metric" => Ok(is_metric_name(text)),
        "namespace" => Ok(is_namespace(text)),
        "object" => Ok(is_name(text)),
        "reserved" => Ok(is_reserved(text)),
        "tag" => Ok(is_tag_key(text)),
        "tag value" => Ok(is_tag_value(text)),
        _ => Err(Trouble::Unreadable("there is no such kind of name")),
    }
}
