use crate::tables::{misfit, said};
use crate::trouble::Trouble;
use op_base::{NoMemory, Text};
use ql_parse::{ParseFault, parse};
use ql_tree::{Expr, ExprType, TypeFault, type_of};
use std::alloc::Global;

/// Of a text: the type of its tree.
pub fn found(alloc: Global, given: &[Text]) -> Result<Text, Trouble> {
    match given {
        [text] => Ok(said(alloc, type_name(alloc, text.as_str())?, "")?),
        _ => misfit(),
    }
}

fn type_name(alloc: Global, text: &str) -> Result<&'static str, NoMemory> {
    match parse(alloc, text) {
        Ok(expr) => tree_type(alloc, &expr),
        Err(ParseFault::NotExpr) => Ok("none"),
        Err(ParseFault::NoMemory) => Err(NoMemory),
    }
}

fn tree_type(alloc: Global, expr: &Expr) -> Result<&'static str, NoMemory> {
    match type_of(alloc, expr) {
        Ok(ExprType::Scalar) => Ok("scalar"),
        Ok(ExprType::Vector) => Ok("vector"),
        Ok(ExprType::Range) => Ok("range"),
        Ok(ExprType::Str) => Ok("string"),
        Err(TypeFault::IllTyped(_)) => Ok("none"),
        Err(TypeFault::NoMemory) => Err(NoMemory),
    }
}
