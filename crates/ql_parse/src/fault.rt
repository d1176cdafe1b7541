ghost use Rattle.std.specs.Prelude.{◌≡◌};

use op_base::NoMemory;

/// Why a text is not read: no tree spells it, or memory was refused.
#[derive(Clone, Copy, Debug, PartialEq, Eq)]
pub enum ParseFault {
    NotExpr,
    NoMemory,
}

impl From<NoMemory> for ParseFault {
    ghost use Rattle.ql_parse.specs.declared.fault.ParseFault.TheVariants.{NoMemory as no_memory};

    ghost from_gives = { λ _ e. e ≡ no_memory };

    fn from(_refused: NoMemory) -> Self {
        ParseFault::NoMemory
    }
}
