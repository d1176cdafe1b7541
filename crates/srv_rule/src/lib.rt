//! Rule rounds: what the rules of a configuration record at a tick.
//!
//! `specs/Rounds.antt` says what a round is; `specs/Recorded.antt` what a rule makes of a vector.
#![tactic(auto)]

mod results;
mod rounds;
mod states;
mod view;

pub use rounds::{next_round, round};
pub use states::RuleStates;
pub use view::{FailedRule, RoundView};
