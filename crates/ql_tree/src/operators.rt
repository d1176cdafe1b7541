ghost use Rattle.std.specs.Prelude.{◌≡◌, ◌≤◌};
ghost use Rattle.ql_tree.specs.Operators as spec;
ghost use Rattle.ql_tree.specs.Pieces.{bytes_of};

use crate::tree::{ArithOp, BinaryOp};
use crate::word::{Keyword, Word};

impl ArithOp {
    fn name(self) -> &'static str
        ensures { result.now ≡ bytes_of (spec.arith_word self) }
    {
        match self {
            ArithOp::Add => "+",
            ArithOp::Sub => "-",
            ArithOp::Mul => "*",
            ArithOp::Div => "/",
            ArithOp::Rem => "%",
        }
    }

    fn level(self) -> usize
        ensures level { result ≡ spec.arith_level self }
        ensures some { 1 ≤ result }
    {
        match self {
            ArithOp::Mul => 1,
            ArithOp::Div => 1,
            ArithOp::Rem => 1,
            ArithOp::Add => 2,
            ArithOp::Sub => 2,
        }
    }
}

impl BinaryOp {
    /// How the operator is written.
    pub fn name(self) -> &'static str
        ensures { result.now ≡ bytes_of (spec.operator_word self) }
    {
        match self {
            BinaryOp::Arith(op) => op.name(),
            BinaryOp::Eq => "==",
            BinaryOp::Ne => "!=",
            BinaryOp::Gt => ">",
            BinaryOp::Lt => "<",
            BinaryOp::Ge => ">=",
            BinaryOp::Le => "<=",
            BinaryOp::And => "and",
            BinaryOp::Unless => "unless",
            BinaryOp::Or => "or",
        }
    }

    /// The operator that the word is.
    #[tactic(auto, unfolding(crate::specs::Operators::operator_of))]
    pub fn of_word(word: &Word) -> Option<BinaryOp>
        ensures { result ≡ spec.operator_of word.now }
    {
        match word {
            Word::Star => Some(BinaryOp::Arith(ArithOp::Mul)),
            Word::Slash => Some(BinaryOp::Arith(ArithOp::Div)),
            Word::Percent => Some(BinaryOp::Arith(ArithOp::Rem)),
            Word::Plus => Some(BinaryOp::Arith(ArithOp::Add)),
            Word::Minus => Some(BinaryOp::Arith(ArithOp::Sub)),
            Word::Equal => Some(BinaryOp::Eq),
            Word::NotEqual => Some(BinaryOp::Ne),
            Word::Greater => Some(BinaryOp::Gt),
            Word::Less => Some(BinaryOp::Lt),
            Word::GreaterEqual => Some(BinaryOp::Ge),
            Word::LessEqual => Some(BinaryOp::Le),
            Word::Name(keyword, _) => of_keyword(*keyword),
            _ => None,
        }
    }

    /// The operator's level: a lower one binds tighter.
    #[tactic(auto, unfolding(crate::specs::Operators::level_of))]
    pub fn level(self) -> usize
        ensures level { result ≡ spec.level_of self }
        ensures some { 1 ≤ result }
    {
        match self {
            BinaryOp::Arith(op) => op.level(),
            BinaryOp::Eq => 3,
            BinaryOp::Ne => 3,
            BinaryOp::Gt => 3,
            BinaryOp::Lt => 3,
            BinaryOp::Ge => 3,
            BinaryOp::Le => 3,
            BinaryOp::And => 4,
            BinaryOp::Unless => 4,
            BinaryOp::Or => 5,
        }
    }

    /// Whether the operator compares, as those of level 3 do.
    #[tactic(auto, unfolding(crate::specs::Operators::is_comparison))]
    pub fn is_comparison(self) -> bool
        ensures { result ≡ spec.is_comparison self }
    {
        self.level() == 3
    }

    /// Whether the operator is one on sets, as those of the levels 4 and 5 are.
    #[tactic(auto, unfolding(crate::specs::Operators::is_set))]
    pub fn is_set(self) -> bool
        ensures { result ≡ spec.is_set self }
    {
        3 < self.level()
    }
}

fn of_keyword(keyword: Keyword) -> Option<BinaryOp>
    ensures { result ≡ spec.keyword_operator keyword }
{
    match keyword {
        Keyword::And => Some(BinaryOp::And),
        Keyword::Unless => Some(BinaryOp::Unless),
        Keyword::Or => Some(BinaryOp::Or),
        _ => None,
    }
}
