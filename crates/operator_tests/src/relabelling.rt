//! Relabelling by each action: what one step leaves of the labels `a="x"`, `b="Xy"`.

use crate::things::{is_so, text};
use op_base::{Labels, List, NoMemory, Text};
use op_relabel::{Action, CheckedSteps, Step, StepFault, check, prepare, relabel_by};
use std::alloc::Global;

/// The fields of a step whose one source label is `b`.
#[derive(Drop)]
struct Fields {
    action: Action,
    pattern: &'static str,
    replacement: &'static str,
    target: &'static str,
    modulus: u64,
}

fn step_of(alloc: Global, fields: &Fields) -> Result<Step, NoMemory> {
    let mut source = List::new(alloc);
    if !matches!(fields.action, Action::LabelDrop | Action::LabelKeep) {
        source.push(text(alloc, "b")?)?;
    }
    Ok(Step {
        action: fields.action,
        source,
        separator: text(alloc, ";")?,
        pattern: text(alloc, fields.pattern)?,
        replacement: text(alloc, fields.replacement)?,
        target: text(alloc, fields.target)?,
        modulus: fields.modulus,
    })
}

fn two_labels(alloc: Global) -> Result<Labels, NoMemory> {
    let mut labels = Labels::new(alloc);
    labels.set("a", "x")?;
    labels.set("b", "Xy")?;
    Ok(labels)
}

/// The labels as `name=value`, each with a blank behind it.
fn labels_said(alloc: Global, labels: &Labels) -> Result<Text, NoMemory> {
    let mut said = Text::new(alloc);
    for place in 0..labels.len() {
        said.push_str(labels.name_at(place))?;
        said.push_str("=")?;
        said.push_str(labels.value_at(place))?;
        said.push_str(" ")?;
    }
    Ok(said)
}

fn fault_said(fault: StepFault) -> &'static str {
    match fault {
        StepFault::NoTarget => "NoTarget",
        StepFault::BadTarget => "BadTarget",
        StepFault::ZeroModulus => "ZeroModulus",
        StepFault::ExtraField => "ExtraField",
        StepFault::BadPattern => "BadPattern",
        StepFault::NoMemory => "NoMemory",
    }
}

/// What the step leaves, `dropped`, or why it is refused.
fn said(alloc: Global, fields: &Fields) -> Result<Text, NoMemory> {
    let step = step_of(alloc, fields)?;
    if let Err(fault) = check(alloc, &step) {
        return text(alloc, fault_said(fault));
    }
    let mut steps = CheckedSteps::new(alloc);
    if let Err(fault) = steps.push(alloc, step) {
        return text(alloc, fault_said(fault));
    }
    match relabel_by(alloc, &prepare(alloc, &steps)?, &two_labels(alloc)?)? {
        Some(labels) => labels_said(alloc, &labels),
        None => text(alloc, "dropped"),
    }
}

fn all_said(alloc: Global, rows: &[(Fields, &str)]) -> Result<bool, NoMemory> {
    for row in rows {
        if said(alloc, &row.0)?.as_bytes() != row.1.as_bytes() {
            return Ok(false);
        }
    }
    Ok(true)
}

fn acting(
    action: Action,
    pattern: &'static str,
    replacement: &'static str,
    target: &'static str,
    modulus: u64,
) -> Fields {
    Fields {
        action,
        pattern,
        replacement,
        target,
        modulus,
    }
}

#[test]
fn each_action_leaves_its_labels(rt: HostRuntime) {
    let rows = [
        (
            acting(Action::Replace, "X(.)", "$1", "c", 0),
            "a=x b=Xy c=y ",
        ),
        (acting(Action::Keep, "X", "$1", "", 0), "dropped"),
        (acting(Action::Drop, "X", "$1", "", 0), "a=x b=Xy "),
        (acting(Action::KeepEqual, "(.*)", "$1", "a", 0), "dropped"),
        (acting(Action::DropEqual, "(.*)", "$1", "a", 0), "a=x b=Xy "),
        (
            acting(Action::LabelMap, "(.)", "n_$1", "", 0),
            "a=x b=Xy n_a=x n_b=Xy ",
        ),
        (acting(Action::LabelMap, "a", "b", "", 0), "a=x b=x "),
        (acting(Action::LabelMap, "a", "-", "", 0), "a=x b=Xy "),
        (acting(Action::LabelDrop, "a|c", "$1", "", 0), "b=Xy "),
        (acting(Action::LabelKeep, "a|c", "$1", "", 0), "a=x "),
        (
            acting(Action::Lowercase, "(.*)", "$1", "a", 0),
            "a=xy b=Xy ",
        ),
        (
            acting(Action::Uppercase, "(.*)", "$1", "a", 0),
            "a=XY b=Xy ",
        ),
        (
            acting(Action::HashMod, "(.*)", "$1", "a", 1000),
            "a=749 b=Xy ",
        ),
    ];
    assert!(rt; is_so(all_said(rt.alloc(), rows.as_slice())));
}

#[test]
fn steps_are_refused_for_their_first_fault(rt: HostRuntime) {
    let rows = [
        (acting(Action::HashMod, "(", "$1", "", 0), "NoTarget"),
        (acting(Action::Replace, "(", "$1", "1a", 0), "BadTarget"),
        (acting(Action::HashMod, "(", "$1", "a", 0), "ZeroModulus"),
        (acting(Action::KeepEqual, "(", "$1", "a", 0), "ExtraField"),
        (acting(Action::LabelDrop, "(", "$1", "a", 0), "ExtraField"),
        (acting(Action::Keep, "(", "$1", "", 0), "BadPattern"),
    ];
    assert!(rt; is_so(all_said(rt.alloc(), rows.as_slice())));
}
