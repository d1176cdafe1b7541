ghost use Rattle.std.specs.Prelude.{◌≡◌, not, Err, IfOk, OnOk};
ghost use Rattle.op_base.specs.Matchers.{HasPattern, holds_on, passes};
ghost use Rattle.op_base.specs.Patterns.{IsPattern, pattern_matches};

use crate::labels::Labels;
use crate::memory::NoMemory;
use crate::pattern::{Pattern, PatternFault};
use crate::text::Text;
use std::alloc::Global;

/// How a matcher compares a label's value with its own: `=`, `!=`, `=~` and `!~`.
#[derive(Clone, Copy, Debug, PartialEq, Eq)]
pub enum MatchOp {
    Eq,
    Ne,
    Re,
    Nr,
}

/// A matcher on one label, as PromQL and the Alertmanager write them. A missing label counts as
/// the empty text.
#[derive(Clone, Debug, PartialEq, Eq, Drop)]
pub struct Matcher {
    pub name: Text,
    pub op: MatchOp,
    pub value: Text,
}

/// Why a matcher isn't tested.
#[derive(Clone, Copy, Debug, PartialEq, Eq)]
pub enum MatchFault {
    /// Its operator is `=~` or `!~`, and its value is no pattern.
    BadPattern,
    NoMemory,
}

impl From<PatternFault> for MatchFault {
    ghost use Rattle.std.specs.Prelude.{◌≡◌};
    ghost use Rattle.op_base.specs.Matchers.{fault_of};

    ghost from_gives = { λ given fault. fault ≡ fault_of given };

    fn from(fault: PatternFault) -> Self {
        match fault {
            PatternFault::BadPattern => MatchFault::BadPattern,
            PatternFault::NoMemory => MatchFault::NoMemory,
        }
    }
}

impl From<NoMemory> for MatchFault {
    ghost use Rattle.std.specs.Prelude.{◌≡◌};
    ghost use Rattle.op_base.specs.declared.matcher.MatchFault.TheVariants.{NoMemory as no_memory};

    ghost from_gives = { λ _ fault. fault ≡ no_memory };

    fn from(_refused: NoMemory) -> Self {
        MatchFault::NoMemory
    }
}

impl Matcher {
    /// Whether the matcher holds on the labels. With `=~` and `!~`, its value is read as a pattern,
    /// anchored at both ends.
    pub fn holds(&self, alloc: Global, labels: &Labels) -> Result<bool, MatchFault>
        ensures holds { IfOk result (λ holds. holds ≡ holds_on self.now labels.now) }
        ensures read { OnOk result (HasPattern self.now.op self.now.value) }
        ensures refused { result ≡ Err MatchFault.BadPattern → ¬ (HasPattern self.now.op self.now.value) }
    {
        let value = labels.value(self.name.as_str());
        let text = self.value.as_str();
        match self.op {
            MatchOp::Eq => Ok(text.as_bytes() == value.as_bytes()),
            MatchOp::Ne => Ok(text.as_bytes() != value.as_bytes()),
            MatchOp::Re => matches(alloc, text, value),
            MatchOp::Nr => Ok(!matches(alloc, text, value)?),
        }
    }
}

fn matches(alloc: Global, text: &str, value: &str) -> Result<bool, MatchFault>
    ensures found { IfOk result (λ found. found ≡ pattern_matches text.now value.now) }
    ensures read { OnOk result (IsPattern text.now) }
    ensures refused { result ≡ Err MatchFault.BadPattern → ¬ (IsPattern text.now) }
{
    let pattern = Pattern::read(alloc, text)?;
    Ok(pattern.matches(value)?)
}
