ghost use Rattle.std.specs.Prelude.{◌≡◌};
ghost use Rattle.std.specs.List.{list_all};
ghost use Rattle.op_report.specs.Lines as spec;

use crate::view::{Also, View};

/// Whether each answer of the view leaves nothing refused or skipped: `Admitted`, `Unselected` or
/// `Deleted`.
pub fn answers_well(view: &View) -> bool
    ensures { result ≡ spec.answers_well view.now }
{
    match view {
        View::Own { answer, also, .. } => is_good(answer.as_str()) && all_good(also.as_slice()),
        View::Admin { answer, .. } => is_good(answer.as_str()),
        View::Change { also, .. } => all_good(also.as_slice()),
        View::Targets { .. } => true,
        View::TargetsRefused { .. } => false,
        View::Page { .. } | View::Tick { .. } => true,
        View::BadFile { .. } => false,
        View::Bad { .. } | View::Long { .. } | View::LateTick { .. } => false,
        View::NotYetLine { .. } | View::NotYetFile { .. } => false,
    }
}

fn all_good(also: &[Also]) -> bool
    ensures { result ≡ list_all (λ one. spec.is_good one.answer) also.now }
{
    also.iter().all(|one| is_good(one.answer.as_str()))
}

fn is_good(answer: &str) -> bool
    ensures { result ≡ spec.is_good answer.now }
{
    answer == "Admitted" || answer == "Unselected" || answer == "Deleted"
}
