ghost use Rattle.std.specs.Prelude.{◌≡◌};
ghost use Rattle.op_thin.specs.Compiled as spec;

use crate::judged::Judged;
use crate::rule::ThinRule;
use op_base::Text;
use ql_tree::Expr;

/// A recording rule whose expression is taken, with its tree.
#[derive(Debug, PartialEq, Eq, Drop)]
pub struct Recording {
    pub namespace: Text,
    pub name: Text,
    pub group: Text,
    pub record_name: Text,
    pub tree: Expr,
}

/// The rule, or none where its object is skipped.
pub(crate) fn recording_of(rule: ThinRule) -> Option<Recording>
    ensures { result ≡ spec.recording_of rule }
{
    let ThinRule {
        namespace,
        name,
        group,
        record_name,
        expr: _,
        judged,
    } = rule;
    match judged {
        Judged::Tree(tree) => Some(Recording {
            namespace,
            name,
            group,
            record_name,
            tree,
        }),
        _ => None,
    }
}
