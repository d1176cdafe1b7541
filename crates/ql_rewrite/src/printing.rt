ghost use Rattle.std.specs.Prelude.{◌≡◌, ℕ, ◌++◌, List, IfOk, OnOk, codes, map, if◌then◌else◌};
ghost use Rattle.std.specs.Fmt.{signed_decimal};
ghost use Rattle.std.specs.List.{flat_map, join_by};
ghost use Rattle.ql_tree.specs.Pieces.{text_of};
ghost use Rattle.ql_tree.specs.Printed as spec;
ghost use Rattle.ql_tree.specs.Spells.{Spells};

use crate::clauses::{aggregate_name, push_grouping, push_operator};
use crate::selectors::{push_quoted, push_selector};
use op_base::{NoMemory, Text};
use ql_tree::Expr;
use std::alloc::Global;

/// The text of the tree: single blanks, lower-case operators, and no bracket that isn't needed. Of
/// a tree that some text spells it is a text that spells that tree again.
#[tactic(auto, unfolding(ql_tree::specs::Printed::printed), using(crate::proofs::SpelledAgain::printed_again))]
pub fn print(alloc: Global, expr: &Expr) -> Result<Text, NoMemory>
    ensures text { IfOk result (λ text. text ≡ spec.printed expr.now) }
    ensures spells { (text : List ℕ) → Spells expr.now text → Spells expr.now (spec.printed expr.now) }
{
    let mut text = Text::new(alloc);
    push_tree(alloc, &mut text, expr)?;
    Ok(text)
}

#[cycle(printing)]
#[tactic(auto, using(crate::proofs::PrintLemmas::at_select, crate::proofs::PrintLemmas::at_sign, crate::proofs::PrintLemmas::at_operator, crate::proofs::PrintLemmas::at_call, crate::proofs::PrintLemmas::at_aggregate))]
fn push_tree(alloc: Global, text: &mut Text, expr: &Expr) -> Result<(), NoMemory>
    ensures { OnOk result (text.new ≡ text.old ++ text_of (spec.pieces_of expr.now).1) }
{
    match expr {
        Expr::Number(n) => push_number(alloc, text, *n),
        Expr::Str(value) => push_quoted(text, value.as_str()),
        Expr::Select {
            name,
            matchers,
            range,
            offset,
        } => push_selector(alloc, text, name, matchers.as_slice(), range, offset),
        Expr::Unary { minus, of } => {
            text.push_str(if *minus { "-" } else { "+" })?;
            push_operand(alloc, text, 0, of.as_slice())
        }
        Expr::Binary {
            op,
            boolean,
            matching,
            left,
            right,
        } => {
            let level = op.level();
            push_operand(alloc, text, level, left.as_slice())?;
            push_operator(text, *op, *boolean, matching)?;
            push_operand(alloc, text, level - 1, right.as_slice())
        }
        Expr::Call { function, args } => {
            text.push_str(function.as_str())?;
            text.push_str("(")?;
            push_listed(alloc, text, false, args.as_slice())?;
            text.push_str(")")
        }
        Expr::Aggregate {
            op,
            grouping,
            param,
            of,
        } => {
            text.push_str(aggregate_name(*op))?;
            push_grouping(text, grouping)?;
            text.push_str("(")?;
            push_listed(alloc, text, false, param.as_slice())?;
            push_listed(alloc, text, !param.as_slice().is_empty(), of.as_slice())?;
            text.push_str(")")
        }
    }
}

/// The operand at a place where the level may be `loosest` at most.
#[cycle(printing)]
fn push_operand(
    alloc: Global,
    text: &mut Text,
    loosest: usize,
    exprs: &[Expr],
) -> Result<(), NoMemory>
    ensures { OnOk result (text.new ≡ text.old ++ text_of (spec.operand_pieces loosest (map spec.pieces_of exprs.now))) }
{
    match exprs {
        [] => Ok(()),
        [expr, ..] => push_placed(alloc, text, loosest, expr),
    }
}

/// The tree's text, in brackets where its level is looser.
#[cycle(printing)]
#[tactic(auto, using(crate::proofs::PrintLemmas::at_brackets))]
fn push_placed(alloc: Global, text: &mut Text, loosest: usize, expr: &Expr) -> Result<(), NoMemory>
    ensures { OnOk result (text.new ≡ text.old ++ text_of (spec.placed loosest (spec.pieces_of expr.now))) }
{
    if loosest < level(expr) {
        text.push_str("(")?;
        push_tree(alloc, text, expr)?;
        text.push_str(")")
    } else {
        push_tree(alloc, text, expr)
    }
}

/// The trees' texts with a comma and a blank between each two, and before the first where it stands
/// `behind` others.
#[cycle(printing)]
fn push_listed(alloc: Global, text: &mut Text, behind: bool, exprs: &[Expr]) -> Result<(), NoMemory>
    ensures { OnOk result (text.new ≡ text.old
        ++ (if behind then flat_map (λ p. codes ", " ++ text_of p.1) (map spec.pieces_of exprs.now)
        else join_by (λ p. text_of p.1) (codes ", ") (map spec.pieces_of exprs.now))) }
{
    let mut more = behind;
    for expr in exprs {
        push_item(alloc, text, more, expr)?;
        more = true;
    }
    Ok(())
}

/// The tree's text, with a comma and a blank before it where it stands `behind` others.
#[cycle(printing)]
fn push_item(alloc: Global, text: &mut Text, behind: bool, expr: &Expr) -> Result<(), NoMemory>
    ensures { OnOk result (text.new ≡ text.old
        ++ (if behind then codes ", " else codes "") ++ text_of (spec.pieces_of expr.now).1) }
{
    text.push_str(if behind { ", " } else { "" })?;
    push_tree(alloc, text, expr)
}

/// The level of the tree: that of its operator, or 0.
fn level(expr: &Expr) -> usize
    ensures { result ≡ (spec.pieces_of expr.now).0 }
{
    match expr {
        Expr::Binary { op, .. } => op.level(),
        _ => 0,
    }
}

fn push_number(alloc: Global, text: &mut Text, n: i64) -> Result<(), NoMemory>
    ensures { OnOk result (text.new ≡ text.old ++ signed_decimal n) }
{
    text.push_str(format!(in alloc; "{n}")?.as_str())
}
