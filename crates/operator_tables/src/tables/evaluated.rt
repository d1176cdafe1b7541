use crate::cells::{cells_of, is_row};
use crate::tables::label_cells::{labels_of, push_labels};
use crate::tables::{misfit, said};
use crate::trouble::Trouble;
use op_base::{Labels, List, Moment, NoMemory, Text};
use ql_call::Outcome;
use ql_eval::eval;
use ql_parse::{ParseFault, parse};
use ql_tree::{Expr, ExprType, TypeFault, type_of};
use srv_store::{Entry, Store};
use std::alloc::Global;

/// The store of the entries that these rows are.
pub fn store_of(alloc: Global, rows: &str) -> Result<Store, Trouble> {
    let mut store = Store::new(alloc);
    for row in rows.lines() {
        if is_row(row) {
            let cells = cells_of(alloc, row)?;
            store.add(entry_of(alloc, cells.as_slice())?)?;
        }
    }
    Ok(store)
}

fn entry_of(alloc: Global, cells: &[Text]) -> Result<Entry, Trouble> {
    match cells {
        [at, value, labels @ ..] => Ok(Entry {
            labels: labels_of(alloc, labels)?,
            at: Moment(number_in(at.as_str())?),
            value: value_in(value.as_str())?,
        }),
        _ => Err(Trouble::Unreadable("an entry has a moment and a value")),
    }
}

fn value_in(text: &str) -> Result<Option<i64>, Trouble> {
    if text == "stale" {
        return Ok(None);
    }
    Ok(Some(number_in(text)?))
}

fn number_in(text: &str) -> Result<i64, Trouble> {
    match text.parse::<i64>() {
        Ok(number) => Ok(number),
        Err(_) => Err(Trouble::Unreadable("a moment or value is a number")),
    }
}

/// Of a moment and a text: what it comes to over the store.
pub fn found(alloc: Global, store: &Store, given: &[Text]) -> Result<Text, Trouble> {
    match given {
        [moment, text] => {
            let moment = Moment(number_in(moment.as_str())?);
            Ok(value(alloc, store, text.as_str(), moment)?)
        }
        _ => misfit(),
    }
}

fn value(alloc: Global, store: &Store, text: &str, moment: Moment) -> Result<Text, NoMemory> {
    match parse(alloc, text) {
        Ok(expr) => tree_value(alloc, store, &expr, moment),
        Err(ParseFault::NotExpr) => said(alloc, "!NotExpr", ""),
        Err(ParseFault::NoMemory) => Err(NoMemory),
    }
}

fn tree_value(alloc: Global, store: &Store, expr: &Expr, moment: Moment) -> Result<Text, NoMemory> {
    match type_of(alloc, expr) {
        Ok(ExprType::Scalar | ExprType::Vector) => {
            let outcome = eval(alloc, expr, store, moment)?;
            shown(alloc, &outcome)
        }
        Ok(ExprType::Range | ExprType::Str) => said(alloc, "!NotEvaluable", ""),
        Err(TypeFault::IllTyped(_)) => said(alloc, "!NotEvaluable", ""),
        Err(TypeFault::NoMemory) => Err(NoMemory),
    }
}

fn shown(alloc: Global, outcome: &Outcome) -> Result<Text, NoMemory> {
    match outcome {
        Outcome::Vector(elements) => shown_vector(alloc, elements),
        Outcome::Scalar(value) => shown_number(alloc, *value),
        Outcome::Clash(these, those) => shown_clash(alloc, these, those),
        Outcome::ZeroScalar => Text::from_str(alloc, "!ZeroScalar"),
    }
}

fn shown_vector(alloc: Global, elements: &List<(Labels, i64)>) -> Result<Text, NoMemory> {
    let mut text = Text::new(alloc);
    let mut separator = "";
    for element in elements.as_slice() {
        text.push_str(separator)?;
        push_element(alloc, &mut text, &element.0, element.1)?;
        separator = "; ";
    }
    Ok(text)
}

fn push_element(
    alloc: Global,
    text: &mut Text,
    labels: &Labels,
    value: i64,
) -> Result<(), NoMemory> {
    push_labels(text, labels)?;
    text.push_str(format!(in alloc; " {value}")?.as_str())
}

fn shown_number(alloc: Global, value: i64) -> Result<Text, NoMemory> {
    Ok(Text::from_string(format!(in alloc; "{value}")?))
}

fn shown_clash(alloc: Global, these: &Labels, those: &Labels) -> Result<Text, NoMemory> {
    let mut text = Text::from_str(alloc, "!Clash ")?;
    push_both(&mut text, these, those)?;
    Ok(text)
}

fn push_both(text: &mut Text, these: &Labels, those: &Labels) -> Result<(), NoMemory> {
    push_labels(text, these)?;
    text.push_str(" ")?;
    push_labels(text, those)
}
