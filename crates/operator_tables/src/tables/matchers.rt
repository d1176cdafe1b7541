use crate::tables::label_cells::labels_of;
use crate::tables::{misfit, said};
use crate::trouble::Trouble;
use op_base::{Labels, MatchFault, Matcher, NoMemory, Text};
use ql_parse::{ParseFault, parse};
use ql_tree::Expr;
use std::alloc::Global;

/// Of a matcher and labels: whether it holds on them.
pub fn found(alloc: Global, given: &[Text]) -> Result<Text, Trouble> {
    match given {
        [matcher, labels @ ..] => {
            let labels = labels_of(alloc, labels)?;
            Ok(said(alloc, judged(alloc, matcher.as_str(), &labels)?, "")?)
        }
        _ => misfit(),
    }
}

// The matcher is read as the one of a selector without a name.
fn judged(alloc: Global, matcher: &str, labels: &Labels) -> Result<&'static str, Trouble> {
    let mut selector = said(alloc, "{", matcher)?;
    selector.push_str("}")?;
    match parse(alloc, selector.as_str()) {
        Ok(expr) => judged_tree(alloc, &expr, labels),
        Err(ParseFault::NotExpr) => no_matcher(),
        Err(ParseFault::NoMemory) => Err(Trouble::NoMemory),
    }
}

fn judged_tree(alloc: Global, expr: &Expr, labels: &Labels) -> Result<&'static str, Trouble> {
    match expr {
        Expr::Select { matchers, .. } => match matchers.as_slice() {
            [matcher] => Ok(holds(alloc, matcher, labels)?),
            _ => no_matcher(),
        },
        _ => no_matcher(),
    }
}

fn no_matcher() -> Result<&'static str, Trouble> {
    Err(Trouble::Unreadable("the first cell is no matcher"))
}

fn holds(alloc: Global, matcher: &Matcher, labels: &Labels) -> Result<&'static str, NoMemory> {
    match matcher.holds(alloc, labels) {
        Ok(true) => Ok("holds"),
        Ok(false) => Ok("fails"),
        Err(MatchFault::BadPattern) => Ok("!NotPattern"),
        Err(MatchFault::NoMemory) => Err(NoMemory),
    }
}
