use crate::expression::needed_expression;
use op_base::{NoMemory, Span, Tags, Text};
use op_manifest::{Item, Shape, Tree, noted_known, noted_span, noted_text, noted_texts};
use std::alloc::Global;

/// A rule that records a series or raises alerts. Reading takes one with both names, or with none.
#[derive(Debug, PartialEq, Eq, Drop)]
pub struct Rule {
    pub record_name: Option<Text>,
    pub alert_name: Option<Text>,
    /// The text of the expression.
    pub expr: Text,
    /// How long an alert waits before it fires, where that is given; it may be 0.
    pub wait_for: Option<Span>,
    pub labels: Tags,
    pub annotations: Tags,
}

impl Item for Rule {
    ghost use Rattle.op_manifest.specs.Checks.{table};
    ghost use Rattle.kind_rules.specs.RuleTables as spec;

    ghost wrongs = { table spec.rule_rows };

    ghost of = { spec.rule_of };

    fn read(
        found: &mut Option<Shape>,
        alloc: Global,
        tree: &Tree,
        path: &str,
    ) -> Result<Rule, NoMemory> {
        let names = ["record", "alert", "expr", "for", "labels", "annotations"];
        noted_known(found, alloc, tree, &names, path)?;
        let record_name = noted_text(found, alloc, tree, "record", path)?;
        let alert_name = noted_text(found, alloc, tree, "alert", path)?;
        let expr = needed_expression(found, alloc, tree, "expr", path)?;
        let wait_for = noted_span(found, alloc, tree, "for", path)?;
        let labels = noted_texts(found, alloc, tree, "labels", path)?;
        let annotations = noted_texts(found, alloc, tree, "annotations", path)?;
        Ok(Rule {
            record_name,
            alert_name,
            expr,
            wait_for,
            labels,
            annotations,
        })
    }
}
