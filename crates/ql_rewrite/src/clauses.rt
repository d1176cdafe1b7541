ghost use Rattle.std.specs.Prelude.{◌≡◌, ◌++◌, OnOk, codes, if◌then◌else◌};
ghost use Rattle.std.specs.List.{join_by};
ghost use Rattle.ql_tree.specs.ClauseWords as words;
ghost use Rattle.ql_tree.specs.Pieces.{bytes_of, text_of};
ghost use Rattle.ql_tree.specs.PrintedParts as spec;
ghost use Rattle.ql_tree.specs.Selecting.{match_word};

use op_base::{MatchOp, NoMemory, Text};
use ql_tree::{AggregateOp, BinaryOp, Grouping, Matching, Side};

pub(crate) fn aggregate_name(op: AggregateOp) -> &'static str
    ensures { result.now ≡ words.aggregate_name op }
{
    match op {
        AggregateOp::Sum => "sum",
        AggregateOp::Min => "min",
        AggregateOp::Max => "max",
        AggregateOp::Avg => "avg",
        AggregateOp::Group => "group",
        AggregateOp::Count => "count",
        AggregateOp::CountValues => "count_values",
        AggregateOp::TopK => "topk",
        AggregateOp::BottomK => "bottomk",
    }
}

pub(crate) fn match_name(op: MatchOp) -> &'static str
    ensures { result.now ≡ bytes_of (match_word op) }
{
    match op {
        MatchOp::Eq => "=",
        MatchOp::Ne => "!=",
        MatchOp::Re => "=~",
        MatchOp::Nr => "!~",
    }
}

/// The operator with what stands between it and its right operand, blanks included.
#[tactic(auto, using(crate::proofs::PrintLemmas::at_operator_pieces))]
pub(crate) fn push_operator(
    text: &mut Text,
    op: BinaryOp,
    boolean: bool,
    matching: &Option<Matching>,
) -> Result<(), NoMemory>
    ensures { OnOk result (text.new ≡ text.old ++ text_of (spec.operator_pieces op boolean matching.now)) }
{
    text.push_str(" ")?;
    text.push_str(op.name())?;
    text.push_str(if boolean { " bool" } else { "" })?;
    push_matching(text, matching)?;
    text.push_str(" ")
}

#[tactic(auto, unfolding(ql_tree::specs::ClauseWords::matching_word))]
fn matching_name(on: bool) -> &'static str
    ensures { result.now ≡ bytes_of (words.matching_word on) }
{
    if on { "on" } else { "ignoring" }
}

#[tactic(auto, unfolding(ql_tree::specs::ClauseWords::side_word))]
fn side_name(left: bool) -> &'static str
    ensures { result.now ≡ bytes_of (words.side_word left) }
{
    if left { "group_left" } else { "group_right" }
}

#[tactic(auto, unfolding(ql_tree::specs::ClauseWords::grouping_word))]
fn grouping_name(by: bool) -> &'static str
    ensures { result.now ≡ bytes_of (words.grouping_word by) }
{
    if by { "by" } else { "without" }
}

#[tactic(auto, using(crate::proofs::PrintLemmas::at_matching))]
fn push_matching(text: &mut Text, matching: &Option<Matching>) -> Result<(), NoMemory>
    ensures { OnOk result (text.new ≡ text.old ++ text_of (spec.matching_pieces matching.now)) }
{
    match matching {
        None => Ok(()),
        Some(m) => {
            push_clause(text, matching_name(m.on), m.labels.as_slice())?;
            push_side(text, &m.side)
        }
    }
}

#[tactic(auto, using(crate::proofs::PrintLemmas::at_clause))]
fn push_side(text: &mut Text, side: &Option<Side>) -> Result<(), NoMemory>
    ensures { OnOk result (text.new ≡ text.old ++ text_of (spec.side_pieces side.now)) }
{
    match side {
        None => Ok(()),
        Some(side) => push_clause(text, side_name(side.left), side.include.as_slice()),
    }
}

#[tactic(auto, using(crate::proofs::PrintLemmas::at_grouping))]
pub(crate) fn push_grouping(text: &mut Text, grouping: &Option<Grouping>) -> Result<(), NoMemory>
    ensures { OnOk result (text.new ≡ text.old ++ text_of (spec.grouping_pieces grouping.now)) }
{
    match grouping {
        None => Ok(()),
        Some(g) => {
            push_clause(text, grouping_name(g.by), g.labels.as_slice())?;
            text.push_str(" ")
        }
    }
}

/// The word of a clause and its labels, each behind a blank.
fn push_clause(text: &mut Text, name: &str, labels: &[Text]) -> Result<(), NoMemory>
    ensures { OnOk result (text.new ≡ text.old
        ++ codes " " ++ name.now ++ codes " " ++ text_of (spec.labels_pieces labels.now)) }
{
    text.push_str(" ")?;
    text.push_str(name)?;
    text.push_str(" ")?;
    push_labels(text, labels)
}

#[tactic(auto, using(crate::proofs::PrintLemmas::at_labels))]
fn push_labels(text: &mut Text, labels: &[Text]) -> Result<(), NoMemory>
    ensures { OnOk result (text.new ≡ text.old ++ text_of (spec.labels_pieces labels.now)) }
{
    text.push_str("(")?;
    push_listed_labels(text, labels)?;
    text.push_str(")")
}

/// The labels with a comma and a blank between each two.
fn push_listed_labels(text: &mut Text, labels: &[Text]) -> Result<(), NoMemory>
    ensures { OnOk result (text.new ≡ text.old ++ join_by (λ label. label) (codes ", ") labels.now) }
{
    let mut behind = false;
    for label in labels {
        push_label(text, behind, label.as_str())?;
        behind = true;
    }
    Ok(())
}

/// The label, with a comma and a blank before it where it stands `behind` others.
fn push_label(text: &mut Text, behind: bool, label: &str) -> Result<(), NoMemory>
    ensures { OnOk result (text.new ≡ text.old ++ (if behind then codes ", " else codes "") ++ label.now) }
{
    text.push_str(if behind { ", " } else { "" })?;
    text.push_str(label)
}
