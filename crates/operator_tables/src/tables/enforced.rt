use crate::tables::{misfit, said};
use crate::trouble::Trouble;
use op_base::{NAMESPACE_LABEL, NoMemory, Text};
use ql_parse::{ParseFault, parse};
use ql_rewrite::{EnforceFault, enforce, print};
use ql_tree::Expr;
use std::alloc::Global;

/// Of a text and `strict` or `lenient`: what is printed with `namespace="a"` enforced.
pub fn found(alloc: Global, given: &[Text]) -> Result<Text, Trouble> {
    match given {
        [text, strictness] => {
            let is_strict = strictness_of(strictness.as_str())?;
            Ok(enforced(alloc, text.as_str(), is_strict)?)
        }
        _ => misfit(),
    }
}

fn enforced(alloc: Global, text: &str, is_strict: bool) -> Result<Text, NoMemory> {
    match parse(alloc, text) {
        Ok(expr) => enforced_tree(alloc, &expr, is_strict),
        Err(ParseFault::NotExpr) => said(alloc, "!NotExpr", ""),
        Err(ParseFault::NoMemory) => Err(NoMemory),
    }
}

fn strictness_of(word: &str) -> Result<bool, Trouble> {
    match word {
        "strict" => Ok(true),
        "lenient" => Ok(false),
        _ => Err(Trouble::Unreadable("the second cell is strict or lenient")),
    }
}

fn enforced_tree(alloc: Global, expr: &Expr, is_strict: bool) -> Result<Text, NoMemory> {
    match enforce(alloc, expr, NAMESPACE_LABEL, "a", is_strict) {
        Ok(enforced) => print(alloc, &enforced),
        Err(EnforceFault::Conflict(matcher)) => said(alloc, "!", matcher.value.as_str()),
        Err(EnforceFault::NoMemory) => Err(NoMemory),
    }
}
