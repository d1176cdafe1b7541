ghost use Rattle.std.specs.Prelude.{◌≡◌, Some};
ghost use Rattle.ql_tree.specs.declared.word.Word.TheVariants as word;
ghost use Rattle.ql_parse.specs.Found.{first};
ghost use Rattle.ql_parse.specs.FrontWords.{label_of};
ghost use Rattle.ql_parse.specs.Gives.{Gives};
ghost use Rattle.ql_parse.specs.ReadClauses as reading;

use crate::fault::ParseFault;
use crate::fronts::{
    begins_open, bool_word, close, grouping_word, label, matching_word, open, side_word,
};
use crate::lists::{Item, comma_list};
use op_base::{List, Text};
use ql_tree::{Grouping, Matching, Side, Word};
use std::alloc::Global;

impl Item for Text {
    ghost closing = { word.Close };

    ghost reading = { first label_of };

    fn close(words: &[Word]) -> Option<&[Word]> {
        close(words)
    }

    fn read(alloc: Global, words: &[Word]) -> Result<(Text, &[Word]), ParseFault> {
        match label(words) {
            Some((text, behind)) => Ok((Text::from_str(alloc, text.as_str())?, behind)),
            None => Err(ParseFault::NotExpr),
        }
    }
}

/// Labels between round brackets, of which `room` may be opened.
#[tactic(auto, unfolding(crate::specs::ReadClauses::label_list))]
fn label_list(
    alloc: Global,
    room: usize,
    words: &[Word],
) -> Result<(List<Text>, &[Word]), ParseFault>
    ensures { Gives (λ x. (x.0, x.1.now)) result (reading.label_list room words.now) }
{
    if room == 0 {
        return Err(ParseFault::NotExpr);
    }
    match open(words) {
        Some(behind) => comma_list(alloc, behind),
        None => Err(ParseFault::NotExpr),
    }
}

/// Behind a `group_` word: its list, where a bracket follows.
fn side_behind(
    alloc: Global,
    room: usize,
    left: bool,
    words: &[Word],
) -> Result<(Option<Side>, &[Word]), ParseFault>
    ensures { Gives (λ x. (x.0, x.1.now)) result (reading.side_behind room left words.now) }
{
    if begins_open(words) {
        let (include, behind) = label_list(alloc, room, words)?;
        Ok((Some(Side { left, include }), behind))
    } else {
        let include = List::new(alloc);
        Ok((Some(Side { left, include }), words))
    }
}

/// A `group_` clause, or nothing.
#[tactic(auto, unfolding(crate::specs::ReadClauses::side))]
fn side(alloc: Global, room: usize, words: &[Word]) -> Result<(Option<Side>, &[Word]), ParseFault>
    ensures { Gives (λ x. (x.0, x.1.now)) result (reading.side room words.now) }
{
    match side_word(words) {
        Some((left, behind)) => side_behind(alloc, room, left, behind),
        None => Ok((None, words)),
    }
}

/// Behind `on` or `ignoring`: its labels, and a `group_` clause or nothing.
fn matching_behind(
    alloc: Global,
    room: usize,
    on: bool,
    words: &[Word],
) -> Result<(Option<Matching>, &[Word]), ParseFault>
    ensures { Gives (λ x. (x.0, x.1.now)) result
        (reading.matching_at room words.now (Some (on, words.now))) }
{
    let (labels, behind) = label_list(alloc, room, words)?;
    let (side, behind) = side(alloc, room, behind)?;
    Ok((Some(Matching { on, labels, side }), behind))
}

/// `on` or `ignoring` with its labels and a `group_` clause or none, or nothing.
#[tactic(auto, unfolding(crate::specs::ReadClauses::matching))]
pub(crate) fn matching(
    alloc: Global,
    room: usize,
    words: &[Word],
) -> Result<(Option<Matching>, &[Word]), ParseFault>
    ensures { Gives (λ x. (x.0, x.1.now)) result (reading.matching room words.now) }
{
    match matching_word(words) {
        Some((on, behind)) => matching_behind(alloc, room, on, behind),
        None => Ok((None, words)),
    }
}

/// Whether `bool` stands behind a comparison, and the words behind it.
#[tactic(auto, unfolding(crate::specs::ReadClauses::boolean))]
pub(crate) fn boolean(comparison: bool, words: &[Word]) -> (bool, &[Word])
    ensures { (result.0, result.1.now) ≡ reading.boolean comparison words.now }
{
    if !comparison {
        return (false, words);
    }
    match bool_word(words) {
        Some(behind) => (true, behind),
        None => (false, words),
    }
}

/// `by` or `without` with its labels, or nothing.
#[tactic(auto, unfolding(crate::specs::ReadClauses::grouping))]
pub(crate) fn grouping(
    alloc: Global,
    room: usize,
    words: &[Word],
) -> Result<(Option<Grouping>, &[Word]), ParseFault>
    ensures { Gives (λ x. (x.0, x.1.now)) result (reading.grouping room words.now) }
{
    match grouping_word(words) {
        Some((by, behind)) => {
            let (labels, behind) = label_list(alloc, room, behind)?;
            Ok((Some(Grouping { by, labels }), behind))
        }
        None => Ok((None, words)),
    }
}
