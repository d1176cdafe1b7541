ghost use Rattle.std.specs.Prelude.{◌≡◌, [], bytes_eq, option_map, IfOk};
ghost use Rattle.std.specs.List.{list_all, list_any};
ghost use Rattle.op_base.specs.Patterns.{pattern_matches};
ghost use Rattle.ql_parse.specs.Trees.{tree_of};
ghost use Rattle.ql_tree.specs.Typed.{shape_of};
ghost use Rattle.op_thin.specs.Nameless as nameless;
ghost use Rattle.op_thin.specs.Judged as spec;

use op_base::{MatchOp, Matcher, NoMemory, Pattern, PatternFault, Text};
use ql_parse::{ParseFault, parse};
use ql_tree::{Expr, ExprType, TypeFault, type_of};
use std::alloc::Global;
use std::mem::drop;

/// What the expression of a rule comes to.
#[derive(Debug, PartialEq, Eq, Drop)]
pub enum Judged {
    /// It is taken: the tree that spells it.
    Tree(Expr),
    /// No tree spells it.
    NotExpr,
    /// It has no type, or is a text or a range.
    IllTyped,
    /// A selector without a name has no matcher that refuses the empty text.
    Nameless,
}

impl Judged {
    /// The rule of admission that the expression breaks, if it does.
    pub fn skip_rule(&self) -> Option<&'static str>
        ensures { option_map (λ rule. rule.now) result ≡ spec.skip_rule self.now }
    {
        match self {
            Judged::Tree(_) => None,
            Judged::NotExpr => Some("A13"),
            Judged::IllTyped => Some("A14"),
            Judged::Nameless => Some("A15"),
        }
    }
}

/// What the text of an expression comes to.
pub fn judge(alloc: Global, text: &str) -> Result<Judged, NoMemory>
    ensures judged { IfOk result (λ judged. judged ≡ spec.judged text.now) }
    ensures typed { IfOk result spec.IsTyped }
{
    match parse(alloc, text) {
        Ok(expr) => judge_tree(alloc, expr),
        Err(ParseFault::NotExpr) => Ok(Judged::NotExpr),
        Err(ParseFault::NoMemory) => Err(NoMemory),
    }
}

#[tactic(auto, using(crate::proofs::JudgedLemmas::valued, crate::proofs::JudgedLemmas::not_valued))]
fn judge_tree(alloc: Global, expr: Expr) -> Result<Judged, NoMemory>
    ensures { IfOk result (λ judged. judged ≡ spec.judged_typed expr (shape_of expr)) }
{
    if is_valued(alloc, &expr)? {
        judge_named(alloc, expr)
    } else {
        drop(expr);
        Ok(Judged::IllTyped)
    }
}

// Whether the expression has a type, and is a scalar or a vector.
fn is_valued(alloc: Global, expr: &Expr) -> Result<bool, NoMemory>
    ensures { IfOk result (λ valued. valued ≡ spec.is_valued (shape_of expr.now)) }
{
    match type_of(alloc, expr) {
        Ok(ExprType::Scalar) => Ok(true),
        Ok(ExprType::Vector) => Ok(true),
        Ok(ExprType::Range) => Ok(false),
        Ok(ExprType::Str) => Ok(false),
        Err(TypeFault::IllTyped(_)) => Ok(false),
        Err(TypeFault::NoMemory) => Err(NoMemory),
    }
}

fn judge_named(alloc: Global, expr: Expr) -> Result<Judged, NoMemory>
    ensures { IfOk result (λ judged. judged ≡ spec.judged_named expr) }
{
    if has_nameless(alloc, &expr)? {
        drop(expr);
        Ok(Judged::Nameless)
    } else {
        Ok(Judged::Tree(expr))
    }
}

#[cycle(looking)]
#[tactic(auto, using(crate::proofs::NamelessLemmas::at_number, crate::proofs::NamelessLemmas::at_string, crate::proofs::NamelessLemmas::at_select, crate::proofs::NamelessLemmas::at_sign, crate::proofs::NamelessLemmas::at_operator, crate::proofs::NamelessLemmas::at_call, crate::proofs::NamelessLemmas::at_aggregate))]
fn has_nameless(alloc: Global, expr: &Expr) -> Result<bool, NoMemory>
    ensures { IfOk result (λ has. has ≡ nameless.has_nameless expr.now) }
{
    match expr {
        Expr::Number(_) => Ok(false),
        Expr::Str(_) => Ok(false),
        Expr::Select { name, matchers, .. } => selects_all(alloc, name, matchers.as_slice()),
        Expr::Unary { of, .. } => any_nameless(alloc, of.as_slice()),
        Expr::Binary { left, right, .. } => {
            if any_nameless(alloc, left.as_slice())? {
                Ok(true)
            } else {
                any_nameless(alloc, right.as_slice())
            }
        }
        Expr::Call { args, .. } => any_nameless(alloc, args.as_slice()),
        Expr::Aggregate { param, of, .. } => {
            if any_nameless(alloc, param.as_slice())? {
                Ok(true)
            } else {
                any_nameless(alloc, of.as_slice())
            }
        }
    }
}

#[cycle(looking)]
fn any_nameless(alloc: Global, exprs: &[Expr]) -> Result<bool, NoMemory>
    ensures { IfOk result (λ any. any ≡ list_any nameless.has_nameless exprs.now) }
{
    for expr in exprs {
        if has_nameless(alloc, expr)? {
            return Ok(true);
        }
    }
    Ok(false)
}

fn selects_all(alloc: Global, name: &Option<Text>, matchers: &[Matcher]) -> Result<bool, NoMemory>
    ensures { IfOk result (λ all. all ≡ nameless.selects_all name.now matchers.now) }
{
    match name {
        None => all_accept_empty(alloc, matchers),
        Some(_) => Ok(false),
    }
}

fn all_accept_empty(alloc: Global, matchers: &[Matcher]) -> Result<bool, NoMemory>
    ensures { IfOk result (λ all. all ≡ list_all nameless.accepts_empty matchers.now) }
{
    for matcher in matchers {
        if !accepts_empty(alloc, matcher)? {
            return Ok(false);
        }
    }
    Ok(true)
}

fn accepts_empty(alloc: Global, matcher: &Matcher) -> Result<bool, NoMemory>
    ensures { IfOk result (λ accepts. accepts ≡ nameless.accepts_empty matcher.now) }
{
    match matcher.op {
        MatchOp::Eq => Ok(is_empty(&matcher.value)),
        MatchOp::Ne => Ok(!is_empty(&matcher.value)),
        MatchOp::Re => matches_empty(alloc, matcher.value.as_str()),
        MatchOp::Nr => Ok(!matches_empty(alloc, matcher.value.as_str())?),
    }
}

fn matches_empty(alloc: Global, text: &str) -> Result<bool, NoMemory>
    ensures { IfOk result (λ matches. matches ≡ pattern_matches text.now []) }
{
    match Pattern::read(alloc, text) {
        Ok(pattern) => pattern.matches(""),
        Err(PatternFault::BadPattern) => Ok(false),
        Err(PatternFault::NoMemory) => Err(NoMemory),
    }
}

fn is_empty(text: &Text) -> bool
    ensures { result ≡ bytes_eq text.now [] }
{
    text.as_bytes() == "".as_bytes()
}
