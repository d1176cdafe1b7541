ghost use Rattle.std.specs.Prelude.{◌≡◌};

use op_base::NoMemory;

/// Why a text has no tokens: the place of the first byte that no token, white space or comment
/// begins at, for a broken string its quote; or memory was refused.
#[derive(Clone, Copy, Debug, PartialEq, Eq)]
pub enum TokenFault {
    BadChar(usize),
    NoMemory,
}

impl From<NoMemory> for TokenFault {
    ghost use Rattle.ql_token.specs.declared.fault.TokenFault.TheVariants.{NoMemory as no_memory};

    ghost from_gives = { λ _ e. e ≡ no_memory };

    fn from(_refused: NoMemory) -> Self {
        TokenFault::NoMemory
    }
}
