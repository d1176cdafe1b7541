// What a recording rule gives at a moment.
ghost use Rattle.std.specs.Prelude.{◌≡◌, [], ◌∷◌, not, Ok, true, IfOk, OnOk};
ghost use Rattle.srv_store.specs.LabelMaps.{has_labels, with_value};
ghost use Rattle.ql_eval.specs.Values.{value_of, whole};
ghost use Rattle.srv_rule.specs.Recorded as spec;

use cfg_types::Rule;
use op_base::{Labels, List, METRIC_NAME, Moment, NoMemory};
use ql_call::Outcome;
use ql_eval::eval;
use srv_store::{LabelMap, Store};
use std::alloc::Global;

// The results of a rule, or none where it fails: its expression does, or two results have equal label
// sets.
pub(crate) fn results_of(
    alloc: Global,
    store: &Store,
    rule: &Rule,
    t: Moment,
) -> Result<Option<LabelMap<i64>>, NoMemory>
    ensures { IfOk result (λ results. results
        ≡ spec.results_of rule.now.name rule.now.labels [] (value_of (whole store.now t) rule.now.expr)) }
{
    match eval(alloc, &rule.expr, store, t)? {
        Outcome::Vector(elements) => gather(alloc, rule, elements.as_slice()),
        Outcome::Scalar(number) => gather(alloc, rule, one(alloc, number)?.as_slice()),
        Outcome::Clash(_, _) => Ok(None),
        Outcome::ZeroScalar => Ok(None),
    }
}

// A scalar counts as one element without labels.
fn one(alloc: Global, number: i64) -> Result<List<(Labels, i64)>, NoMemory>
    ensures { IfOk result (λ elements. elements ≡ ([], number) ∷ []) }
{
    let mut elements = List::new(alloc);
    elements.push((Labels::new(alloc), number))?;
    Ok(elements)
}

fn gather(
    alloc: Global,
    rule: &Rule,
    elements: &[(Labels, i64)],
) -> Result<Option<LabelMap<i64>>, NoMemory>
    ensures { IfOk result (λ results. results ≡ spec.gathered rule.now.name rule.now.labels [] [] elements.now) }
{
    let mut results = LabelMap::new(alloc);
    for element in elements {
        if !put_result(&mut results, rule, element)? {
            return Ok(None);
        }
    }
    Ok(Some(results))
}

// Puts the result of the element, where none of the same labels is there. The answer says whether it
// was put.
fn put_result(
    results: &mut LabelMap<i64>,
    rule: &Rule,
    element: &(Labels, i64),
) -> Result<bool, NoMemory>
    ensures is_new { IfOk result (λ is_new. is_new
        ≡ not (has_labels results.old (spec.recorded_labels rule.now.name rule.now.labels [] element.now.0))) }
    ensures put { result ≡ Ok true → results.new
        ≡ with_value results.old (spec.recorded_labels rule.now.name rule.now.labels [] element.now.0) element.now.1 }
{
    let labels = recorded_labels(rule, &element.0)?;
    if results.get(&labels).is_some() {
        return Ok(false);
    }
    results.insert(labels, element.1)?;
    Ok(true)
}

fn recorded_labels(rule: &Rule, element: &Labels) -> Result<Labels, NoMemory>
    ensures { IfOk result (λ labels. labels ≡ spec.recorded_labels rule.now.name rule.now.labels [] element.now) }
{
    let mut labels = element.copy()?;
    labels.remove(METRIC_NAME);
    labels.set(METRIC_NAME, rule.name.as_str())?;
    labels.set_all(&rule.labels)?;
    Ok(labels)
}
