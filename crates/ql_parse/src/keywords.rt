ghost use Rattle.std.specs.Prelude.{◌≡◌, map};
ghost use Rattle.std.specs.Str.{str_eq_ignore_ascii_case};
ghost use Rattle.ql_tree.specs.Words as spec;

use ql_tree::{AggregateOp, Keyword, is_reserved};

/// The reserved words that trees spell, in lower case.
const KEYWORDS: [(&str, Keyword); 20] = [
    ("and", Keyword::And),
    ("or", Keyword::Or),
    ("unless", Keyword::Unless),
    ("on", Keyword::On),
    ("ignoring", Keyword::Ignoring),
    ("by", Keyword::By),
    ("without", Keyword::Without),
    ("bool", Keyword::Bool),
    ("offset", Keyword::Offset),
    ("group_left", Keyword::GroupLeft),
    ("group_right", Keyword::GroupRight),
    ("sum", Keyword::Aggregate(AggregateOp::Sum)),
    ("min", Keyword::Aggregate(AggregateOp::Min)),
    ("max", Keyword::Aggregate(AggregateOp::Max)),
    ("avg", Keyword::Aggregate(AggregateOp::Avg)),
    ("group", Keyword::Aggregate(AggregateOp::Group)),
    ("count", Keyword::Aggregate(AggregateOp::Count)),
    ("count_values", Keyword::Aggregate(AggregateOp::CountValues)),
    ("topk", Keyword::Aggregate(AggregateOp::TopK)),
    ("bottomk", Keyword::Aggregate(AggregateOp::BottomK)),
];

/// What a word means, in any ASCII letter case.
#[tactic(auto, unfolding(ql_tree::specs::Words::keyword_of))]
pub(crate) fn keyword_of(text: &str) -> Keyword
    ensures { result ≡ spec.keyword_of text.now }
{
    if is_reserved(text) {
        found_in(text, &KEYWORDS).unwrap_or(Keyword::Unused)
    } else {
        Keyword::Unreserved
    }
}

fn found_in(text: &str, entries: &[(&str, Keyword)]) -> Option<Keyword>
    ensures { result ≡ spec.found_in (str_eq_ignore_ascii_case text.now)
        (map (λ entry. (entry.0.now, entry.1)) entries.now) }
{
    for entry in entries {
        if is_key(text, entry.0) {
            return Some(entry.1);
        }
    }
    None
}

fn is_key(text: &str, key: &str) -> bool
    ensures { result ≡ str_eq_ignore_ascii_case text.now key.now }
{
    text.eq_ignore_ascii_case(key)
}
