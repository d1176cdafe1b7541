ghost use Rattle.std.specs.Prelude.{◌≡◌};
ghost use Rattle.std.specs.List.{list_any};
ghost use Rattle.std.specs.Str.{str_eq_ignore_ascii_case};
ghost use Rattle.ql_tree.specs.Reserved as spec;

/// The reserved words of PromQL in lower case. The last six are spelled by no tree here.
const WORDS: [&str; 26] = [
    "and",
    "or",
    "unless",
    "on",
    "ignoring",
    "by",
    "without",
    "bool",
    "offset",
    "group_left",
    "group_right",
    "sum",
    "min",
    "max",
    "avg",
    "group",
    "count",
    "count_values",
    "topk",
    "bottomk",
    "stddev",
    "stdvar",
    "quantile",
    "atan2",
    "inf",
    "nan",
];

/// Whether the text is a reserved word of PromQL, in any ASCII letter case. A reserved word is
/// never a bare metric name or a function; as a label name it stands for itself.
#[tactic(auto, unfolding(crate::specs::Reserved::is_reserved))]
pub fn is_reserved(text: &str) -> bool
    ensures { result ≡ spec.is_reserved text.now }
{
    is_one_of(text, &WORDS)
}

fn is_one_of(text: &str, words: &[&str]) -> bool
    ensures { result ≡ list_any (λ word. str_eq_ignore_ascii_case text.now word.now) words.now }
{
    words.iter().any(|word| text.eq_ignore_ascii_case(word))
}
