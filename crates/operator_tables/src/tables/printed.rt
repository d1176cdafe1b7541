use crate::tables::{misfit, said};
use crate::trouble::Trouble;
use op_base::{NoMemory, Text};
use ql_parse::{ParseFault, parse};
use ql_rewrite::print;
use ql_tree::{Expr, TypeFault, type_of};
use std::alloc::Global;

/// Of a text: what is printed of its tree.
pub fn found(alloc: Global, given: &[Text]) -> Result<Text, Trouble> {
    match given {
        [text] => Ok(printed(alloc, text.as_str())?),
        _ => misfit(),
    }
}

/// What is printed of the text's tree, or what is wrong with it.
pub fn printed(alloc: Global, text: &str) -> Result<Text, NoMemory> {
    match parse(alloc, text) {
        Ok(expr) => printed_tree(alloc, &expr),
        Err(ParseFault::NotExpr) => said(alloc, "!NotExpr", ""),
        Err(ParseFault::NoMemory) => Err(NoMemory),
    }
}

fn printed_tree(alloc: Global, expr: &Expr) -> Result<Text, NoMemory> {
    match type_of(alloc, expr) {
        Ok(_) => print(alloc, expr),
        Err(TypeFault::IllTyped(path)) => said(alloc, "!IllTyped:", path.as_str()),
        Err(TypeFault::NoMemory) => Err(NoMemory),
    }
}
