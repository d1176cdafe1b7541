// What operators give of two numbers.
ghost use Rattle.std.specs.Prelude.{◌≡◌, neg_ℤ};
ghost use Rattle.ql_tree.specs.Arithmetic as arithmetic;
ghost use Rattle.ql_call.specs.Operators as spec;

use crate::numbers::clamped;
use ql_tree::{ArithOp, BinaryOp};

/// What arithmetic gives of two numbers: the nearest number of 64 bits to the exact result. A
/// quotient is cut towards zero, a remainder has the sign of `a`, and nothing is divided by zero.
pub fn arith(op: ArithOp, a: i64, b: i64) -> Option<i64>
    ensures { result ≡ arithmetic.arith_of op a b }
{
    let (a, b) = (i128::from(a), i128::from(b));
    match op {
        ArithOp::Add => Some(clamped(&(a + b))),
        ArithOp::Sub => Some(clamped(&(a - b))),
        ArithOp::Mul => Some(clamped(&(a * b))),
        ArithOp::Div => if b == 0 {
            None
        } else {
            Some(clamped(&(a / b)))
        },
        ArithOp::Rem => if b == 0 {
            None
        } else {
            Some(clamped(&(a % b)))
        },
    }
}

/// The number with the other sign.
pub(crate) fn negative(number: &i64) -> i64
    ensures { result ≡ arithmetic.clamped (neg_ℤ number.now) }
{
    clamped(&-i128::from(*number))
}

/// What an operator other than `and`, `unless` and `or` gives of `a` and `b`, if anything. `kept`
/// is what a comparison without `bool` gives where it holds.
pub(crate) fn number_of(op: BinaryOp, boolean: bool, kept: &i64, a: &i64, b: &i64) -> Option<i64>
    ensures { result ≡ spec.number_of op boolean kept.now a.now b.now }
{
    match op {
        BinaryOp::Arith(op) => arith(op, *a, *b),
        BinaryOp::Eq => verdict(boolean, kept, a == b),
        BinaryOp::Ne => verdict(boolean, kept, a != b),
        BinaryOp::Gt => verdict(boolean, kept, a > b),
        BinaryOp::Lt => verdict(boolean, kept, a < b),
        BinaryOp::Ge => verdict(boolean, kept, a >= b),
        BinaryOp::Le => verdict(boolean, kept, a <= b),
        BinaryOp::And | BinaryOp::Unless | BinaryOp::Or => None,
    }
}

// A comparison with `bool` is 1 or 0.
fn verdict(boolean: bool, kept: &i64, holds: bool) -> Option<i64>
    ensures { result ≡ spec.verdict boolean kept.now holds }
{
    match (boolean, holds) {
        (true, true) => Some(1),
        (true, false) => Some(0),
        (false, true) => Some(*kept),
        (false, false) => None,
    }
}
