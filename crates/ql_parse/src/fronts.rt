ghost use Rattle.std.specs.Prelude.{◌≡◌};
ghost use Rattle.std.specs.Option.{option_map};
ghost use Rattle.ql_tree.specs.ClauseWords.{matching_of, side_of, grouping_of};
ghost use Rattle.ql_tree.specs.Operators.{sign_of};
ghost use Rattle.ql_tree.specs.Selecting.{match_of};
ghost use Rattle.ql_tree.specs.Spells as spells;
ghost use Rattle.ql_tree.specs.declared.word.Keyword.TheVariants as keyword;
ghost use Rattle.ql_tree.specs.declared.word.Word.TheVariants as word;
ghost use Rattle.ql_parse.specs.Found as found;
ghost use Rattle.ql_parse.specs.FrontWords as spec;
ghost use Rattle.ql_parse.specs.Next.{IsNext};

use op_base::{MatchOp, Span, Text, is_label_name};
use ql_tree::{Keyword, Word};

/// The words behind `(`, where it is the first.
pub(crate) fn open(words: &[Word]) -> Option<&[Word]>
    ensures { option_map (λ behind. behind.now) result ≡ spec.beyond word.Open words.now }
{
    match words {
        [Word::Open, behind @ ..] => Some(behind),
        _ => None,
    }
}

pub(crate) fn close(words: &[Word]) -> Option<&[Word]>
    ensures { option_map (λ behind. behind.now) result ≡ spec.beyond word.Close words.now }
{
    match words {
        [Word::Close, behind @ ..] => Some(behind),
        _ => None,
    }
}

pub(crate) fn comma(words: &[Word]) -> Option<&[Word]>
    ensures { option_map (λ behind. behind.now) result ≡ spec.beyond word.Comma words.now }
{
    match words {
        [Word::Comma, behind @ ..] => Some(behind),
        _ => None,
    }
}

pub(crate) fn open_brace(words: &[Word]) -> Option<&[Word]>
    ensures { option_map (λ behind. behind.now) result ≡ spec.beyond word.OpenBrace words.now }
{
    match words {
        [Word::OpenBrace, behind @ ..] => Some(behind),
        _ => None,
    }
}

pub(crate) fn close_brace(words: &[Word]) -> Option<&[Word]>
    ensures { option_map (λ behind. behind.now) result ≡ spec.beyond word.CloseBrace words.now }
{
    match words {
        [Word::CloseBrace, behind @ ..] => Some(behind),
        _ => None,
    }
}

pub(crate) fn open_square(words: &[Word]) -> Option<&[Word]>
    ensures { option_map (λ behind. behind.now) result ≡ spec.beyond word.OpenSquare words.now }
{
    match words {
        [Word::OpenSquare, behind @ ..] => Some(behind),
        _ => None,
    }
}

pub(crate) fn close_square(words: &[Word]) -> Option<&[Word]>
    ensures { option_map (λ behind. behind.now) result ≡ spec.beyond word.CloseSquare words.now }
{
    match words {
        [Word::CloseSquare, behind @ ..] => Some(behind),
        _ => None,
    }
}

pub(crate) fn minus(words: &[Word]) -> Option<&[Word]>
    ensures { option_map (λ behind. behind.now) result ≡ spec.beyond word.Minus words.now }
{
    match words {
        [Word::Minus, behind @ ..] => Some(behind),
        _ => None,
    }
}

pub(crate) fn offset_word(words: &[Word]) -> Option<&[Word]>
    ensures { option_map (λ behind. behind.now) result ≡ spec.beyond_keyword keyword.Offset words.now }
{
    match words {
        [Word::Name(Keyword::Offset, _), behind @ ..] => Some(behind),
        _ => None,
    }
}

pub(crate) fn bool_word(words: &[Word]) -> Option<&[Word]>
    ensures { option_map (λ behind. behind.now) result ≡ spec.beyond_keyword keyword.Bool words.now }
{
    match words {
        [Word::Name(Keyword::Bool, _), behind @ ..] => Some(behind),
        _ => None,
    }
}

/// The label that the first word is, and the words behind it.
pub(crate) fn label(words: &[Word]) -> Option<(&Text, &[Word])>
    ensures { option_map (λ x. (x.0.now, x.1.now)) result ≡ found.first spec.label_of words.now }
{
    match words {
        [Word::Name(_, text), behind @ ..] => {
            if is_label_name(text.as_str()) {
                Some((text, behind))
            } else {
                None
            }
        }
        _ => None,
    }
}

/// The name that the first word is, where it isn't reserved.
pub(crate) fn unreserved(words: &[Word]) -> Option<(&Text, &[Word])>
    ensures { option_map (λ x. (x.0.now, x.1.now)) result ≡ found.first spec.unreserved_of words.now }
{
    match words {
        [Word::Name(Keyword::Unreserved, text), behind @ ..] => Some((text, behind)),
        _ => None,
    }
}

pub(crate) fn quoted(words: &[Word]) -> Option<(&Text, &[Word])>
    ensures { option_map (λ x. (x.0.now, x.1.now)) result ≡ found.first spec.quoted_of words.now }
{
    match words {
        [Word::Quoted(text), behind @ ..] => Some((text, behind)),
        _ => None,
    }
}

pub(crate) fn duration(words: &[Word]) -> Option<(Span, &[Word])>
    ensures { option_map (λ x. (x.0, x.1.now)) result ≡ found.first spec.length_of words.now }
{
    match words {
        [Word::Duration(span), behind @ ..] => Some((*span, behind)),
        _ => None,
    }
}

/// The matching operator that the first word is.
#[tactic(auto, unfolding(ql_tree::specs::Selecting::match_of))]
pub(crate) fn match_op(words: &[Word]) -> Option<(MatchOp, &[Word])>
    ensures { option_map (λ x. (x.0, x.1.now)) result ≡ found.first match_of words.now }
{
    match words {
        [Word::Assign, behind @ ..] => Some((MatchOp::Eq, behind)),
        [Word::NotEqual, behind @ ..] => Some((MatchOp::Ne, behind)),
        [Word::Match, behind @ ..] => Some((MatchOp::Re, behind)),
        [Word::NotMatch, behind @ ..] => Some((MatchOp::Nr, behind)),
        _ => None,
    }
}

/// Whether the sign that the first word is is a minus.
#[tactic(auto, unfolding(ql_tree::specs::Operators::sign_of))]
pub(crate) fn sign(words: &[Word]) -> Option<(bool, &[Word])>
    ensures { option_map (λ x. (x.0, x.1.now)) result ≡ found.first sign_of words.now }
{
    match words {
        [Word::Minus, behind @ ..] => Some((true, behind)),
        [Word::Plus, behind @ ..] => Some((false, behind)),
        _ => None,
    }
}

/// True for `on`, false for `ignoring`.
#[tactic(auto, unfolding(ql_tree::specs::ClauseWords::matching_of))]
pub(crate) fn matching_word(words: &[Word]) -> Option<(bool, &[Word])>
    ensures { option_map (λ x. (x.0, x.1.now)) result ≡ found.first matching_of words.now }
{
    match words {
        [Word::Name(Keyword::On, _), behind @ ..] => Some((true, behind)),
        [Word::Name(Keyword::Ignoring, _), behind @ ..] => Some((false, behind)),
        _ => None,
    }
}

/// True for `group_left`, false for `group_right`.
#[tactic(auto, unfolding(ql_tree::specs::ClauseWords::side_of))]
pub(crate) fn side_word(words: &[Word]) -> Option<(bool, &[Word])>
    ensures { option_map (λ x. (x.0, x.1.now)) result ≡ found.first side_of words.now }
{
    match words {
        [Word::Name(Keyword::GroupLeft, _), behind @ ..] => Some((true, behind)),
        [Word::Name(Keyword::GroupRight, _), behind @ ..] => Some((false, behind)),
        _ => None,
    }
}

/// True for `by`, false for `without`.
#[tactic(auto, unfolding(ql_tree::specs::ClauseWords::grouping_of))]
pub(crate) fn grouping_word(words: &[Word]) -> Option<(bool, &[Word])>
    ensures { option_map (λ x. (x.0, x.1.now)) result ≡ found.first grouping_of words.now }
{
    match words {
        [Word::Name(Keyword::By, _), behind @ ..] => Some((true, behind)),
        [Word::Name(Keyword::Without, _), behind @ ..] => Some((false, behind)),
        _ => None,
    }
}

/// Whether the words begin with `(`.
pub(crate) fn begins_open(words: &[Word]) -> bool
    ensures { result ≡ spells.begins_open words.now }
{
    match words {
        [Word::Open, _behind @ ..] => true,
        _ => false,
    }
}

/// What follows an item of a list.
pub(crate) enum Next<'a> {
    End(&'a [Word]),
    More(&'a [Word]),
    Broken,
}

/// What follows an item, by the words behind the one that closes the list, if it stands there.
pub(crate) fn behind_item<'a>(closed: Option<&'a [Word]>, words: &'a [Word]) -> Next<'a>
    ensures { IsNext (option_map (λ behind. behind.now) closed.entry) words.now result }
{
    if let Some(behind) = closed {
        return Next::End(behind);
    }
    match comma(words) {
        Some(behind) => Next::More(behind),
        None => Next::Broken,
    }
}
