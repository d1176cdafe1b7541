ghost use Rattle.std.specs.Prelude.{◌≡◌, Some, IfOk};
ghost use Rattle.std.specs.List.{list_any};
ghost use Rattle.ql_tree.specs.Children.{depth_of};
ghost use Rattle.ql_tree.specs.Selecting.{is_on_name};
ghost use Rattle.ql_tree.specs.declared.word.Word.TheVariants as word;
ghost use Rattle.ql_parse.specs.Gives.{Gives};
ghost use Rattle.ql_parse.specs.ReadSelectors as reading;

use crate::fault::ParseFault;
use crate::fronts::{
    close_brace, close_square, duration, label, match_op, minus, offset_word, open_brace,
    open_square, quoted, unreserved,
};
use crate::lists::{Item, comma_list};
use op_base::{List, METRIC_NAME, Matcher, Span, Text};
use ql_tree::{Expr, Word};
use std::alloc::Global;

/// A label, an operator and a string.
#[tactic(auto, unfolding(crate::specs::ReadSelectors::matcher))]
fn matcher(alloc: Global, words: &[Word]) -> Result<(Matcher, &[Word]), ParseFault>
    ensures { Gives (λ x. (x.0, x.1.now)) result (reading.matcher words.now) }
{
    let Some((name, behind)) = label(words) else {
        return Err(ParseFault::NotExpr);
    };
    let Some((op, behind)) = match_op(behind) else {
        return Err(ParseFault::NotExpr);
    };
    let Some((value, behind)) = quoted(behind) else {
        return Err(ParseFault::NotExpr);
    };
    let name = Text::from_str(alloc, name.as_str())?;
    let value = Text::from_str(alloc, value.as_str())?;
    Ok((Matcher { name, op, value }, behind))
}

impl Item for Matcher {
    ghost closing = { word.CloseBrace };

    ghost reading = { reading.matcher };

    fn close(words: &[Word]) -> Option<&[Word]> {
        close_brace(words)
    }

    fn read(alloc: Global, words: &[Word]) -> Result<(Matcher, &[Word]), ParseFault> {
        matcher(alloc, words)
    }
}

#[tactic(auto, unfolding(crate::specs::ReadSelectors::braces))]
fn braces(alloc: Global, words: &[Word]) -> Result<(List<Matcher>, &[Word]), ParseFault>
    ensures { Gives (λ x. (x.0, x.1.now)) result (reading.braces words.now) }
{
    match open_brace(words) {
        Some(behind) => comma_list(alloc, behind),
        None => Err(ParseFault::NotExpr),
    }
}

/// Behind a selector's name: its matchers, none of them on `__name__`, or nothing.
fn named<'a>(
    alloc: Global,
    name: &Text,
    words: &'a [Word],
) -> Result<(Option<Text>, List<Matcher>, &'a [Word]), ParseFault>
    ensures { Gives (λ x. ((x.0, x.1), x.2.now)) result
        (reading.head_at words.now (Some (name.now, words.now))) }
{
    let name = Text::from_str(alloc, name.as_str())?;
    if open_brace(words).is_none() {
        return Ok((Some(name), List::new(alloc), words));
    }
    let (found, behind) = braces(alloc, words)?;
    if has_name(found.as_slice()) {
        return Err(ParseFault::NotExpr);
    }
    Ok((Some(name), found, behind))
}

fn has_name(matchers: &[Matcher]) -> bool
    ensures { result ≡ list_any is_on_name matchers.now }
{
    matchers.iter().any(|m| is_on_name(m))
}

fn is_on_name(m: &Matcher) -> bool
    ensures { result ≡ is_on_name m.now }
{
    m.name.as_str() == METRIC_NAME
}

/// A selector's name, if it has one, and its matchers.
#[tactic(auto, unfolding(crate::specs::ReadSelectors::head))]
fn head(alloc: Global, words: &[Word]) -> Result<(Option<Text>, List<Matcher>, &[Word]), ParseFault>
    ensures { Gives (λ x. ((x.0, x.1), x.2.now)) result (reading.head words.now) }
{
    match unreserved(words) {
        Some((name, behind)) => named(alloc, name, behind),
        None => {
            let (found, behind) = braces(alloc, words)?;
            Ok((None, found, behind))
        }
    }
}

/// A duration above 0 in square brackets, or nothing.
#[tactic(auto, unfolding(crate::specs::ReadSelectors::range))]
fn range(words: &[Word]) -> Result<(Option<Span>, &[Word]), ParseFault>
    ensures { Gives (λ x. (x.0, x.1.now)) result (reading.range words.now) }
{
    match open_square(words) {
        Some(behind) => range_behind(behind),
        None => Ok((None, words)),
    }
}

fn range_behind(words: &[Word]) -> Result<(Option<Span>, &[Word]), ParseFault>
    ensures { Gives (λ x. (x.0, x.1.now)) result (reading.range_at words.now (Some words.now)) }
{
    let Some((span, behind)) = duration(words) else {
        return Err(ParseFault::NotExpr);
    };
    let Some(behind) = close_square(behind) else {
        return Err(ParseFault::NotExpr);
    };
    if span.0 > 0 {
        Ok((Some(span), behind))
    } else {
        Err(ParseFault::NotExpr)
    }
}

/// `offset` with a duration, which a minus makes negative, or nothing.
#[tactic(auto, unfolding(crate::specs::ReadSelectors::offset))]
fn offset(words: &[Word]) -> Result<(Option<Span>, &[Word]), ParseFault>
    ensures { Gives (λ x. (x.0, x.1.now)) result (reading.offset words.now) }
{
    match offset_word(words) {
        Some(behind) => offset_behind(behind),
        None => Ok((None, words)),
    }
}

fn offset_behind(words: &[Word]) -> Result<(Option<Span>, &[Word]), ParseFault>
    ensures { Gives (λ x. (x.0, x.1.now)) result (reading.offset_at words.now (Some words.now)) }
{
    match minus(words) {
        Some(behind) => ahead(behind),
        None => match duration(words) {
            Some((span, behind)) => Ok((Some(span), behind)),
            None => Err(ParseFault::NotExpr),
        },
    }
}

/// Behind an offset's minus.
fn ahead(words: &[Word]) -> Result<(Option<Span>, &[Word]), ParseFault>
    ensures { Gives (λ x. (x.0, x.1.now)) result (reading.offset_by words.now (Some words.now)) }
{
    match duration(words) {
        Some((span, behind)) => {
            if span.0 >= 0 {
                Ok((Some(Span(-span.0)), behind))
            } else {
                Err(ParseFault::NotExpr)
            }
        }
        None => Err(ParseFault::NotExpr),
    }
}

/// A selector, with its range and offset.
#[tactic(auto, using(crate::proofs::NodeDepths::depths_of_nodes), unfolding(crate::specs::ReadSelectors::selector))]
pub(crate) fn selector(alloc: Global, words: &[Word]) -> Result<(Expr, &[Word]), ParseFault>
    ensures read { Gives (λ x. (x.0, x.1.now)) result (reading.selector words.now) }
    ensures depth { IfOk result (λ x. depth_of x.0 ≡ 1) }
{
    let (name, matchers, behind) = head(alloc, words)?;
    let (range, behind) = range(behind)?;
    let (offset, behind) = offset(behind)?;
    Ok((
        Expr::Select {
            name,
            matchers,
            range,
            offset,
        },
        behind,
    ))
}
