ghost use Rattle.std.specs.Prelude.{◌≡◌};
ghost use Rattle.std.specs.Option.{option_map};
ghost use Rattle.ql_parse.specs.Found.{first};
ghost use Rattle.ql_parse.specs.FrontWords as fronts;

use ql_tree::{BinaryOp, Word};

/// The binary operator of the level that the first word is, and the words behind it.
pub(crate) fn operator(level: usize, words: &[Word]) -> Option<(BinaryOp, &[Word])>
    ensures { option_map (λ x. (x.0, x.1.now)) result
        ≡ first (fronts.operator_at level) words.now }
{
    match words {
        [word, behind @ ..] => match operator_at(level, word) {
            Some(op) => Some((op, behind)),
            None => None,
        },
        [] => None,
    }
}

fn operator_at(level: usize, word: &Word) -> Option<BinaryOp>
    ensures { result ≡ fronts.operator_at level word.now }
{
    match BinaryOp::of_word(word) {
        Some(op) => of_level(level, op),
        None => None,
    }
}

fn of_level(level: usize, op: BinaryOp) -> Option<BinaryOp>
    ensures { result ≡ fronts.of_level level op }
{
    if op.level() == level { Some(op) } else { None }
}
