ghost use Rattle.std.specs.Prelude.{◌≡◌, ◌≢◌, None, Some, bytes_eq, IfErr, OnOk};
ghost use Rattle.op_relabel.specs.Checks as spec;

use crate::step::{Action, Step};
use op_base::{NoMemory, Pattern, PatternFault, Text, is_label_name};
use std::alloc::Global;
use thiserror::Error;

/// Why a step is refused.
#[derive(Clone, Copy, Debug, PartialEq, Eq, Error)]
pub enum StepFault {
    /// The action has a target label, and the step none.
    #[error("no target label")]
    NoTarget,
    /// The target of such an action is no label name.
    #[error("the target is no label name")]
    BadTarget,
    /// The action divides by 0.
    #[error("the modulus is 0")]
    ZeroModulus,
    /// A field stands there that the action doesn't know.
    #[error("a field that the action doesn't know")]
    ExtraField,
    /// `regex` doesn't read the pattern, or not once it is anchored, or finds it nested too deep.
    #[error("the pattern is none")]
    BadPattern,
    #[error("no memory")]
    NoMemory,
}

impl From<NoMemory> for StepFault {
    ghost use Rattle.std.specs.Prelude.{◌≡◌};
    ghost use Rattle.op_relabel.specs.declared.checking.StepFault.TheVariants.{NoMemory as no_memory};

    ghost from_gives = { λ _ fault. fault ≡ no_memory };

    fn from(_refused: NoMemory) -> Self {
        StepFault::NoMemory
    }
}

/// Whether the step can be run: its fields are those that its action knows, and its pattern is one. The
/// first fault is answered. Where `regex` finds the pattern too large, the answer is `NoMemory` too.
pub fn check(alloc: Global, step: &Step) -> Result<(), StepFault>
    ensures passes { OnOk result (spec.Passes step.now) }
    ensures refused { IfErr result (λ fault. fault ≢ StepFault.NoMemory → spec.first_fault step.now ≡ Some fault) }
{
    match field_fault(step) {
        Some(fault) => Err(fault),
        None => check_pattern(alloc, step),
    }
}

fn check_pattern(alloc: Global, step: &Step) -> Result<(), StepFault>
    ensures passes { OnOk result (spec.pattern_fault step.now ≡ None) }
    ensures refused { IfErr result (λ fault. fault ≢ StepFault.NoMemory → spec.pattern_fault step.now ≡ Some fault) }
{
    match Pattern::read(alloc, step.pattern.as_str()) {
        Ok(_) => Ok(()),
        Err(PatternFault::BadPattern) => Err(StepFault::BadPattern),
        Err(PatternFault::NoMemory) => Err(StepFault::NoMemory),
    }
}

fn field_fault(step: &Step) -> Option<StepFault>
    ensures { result ≡ spec.field_fault step.now }
{
    if has_target(step.action) && step.target.is_empty() {
        return Some(StepFault::NoTarget);
    }
    if has_target(step.action) && !is_label_name(step.target.as_str()) {
        return Some(StepFault::BadTarget);
    }
    if has_modulus(step.action) && step.modulus == 0 {
        return Some(StepFault::ZeroModulus);
    }
    if !has_own_fields(step) {
        return Some(StepFault::ExtraField);
    }
    None
}

fn has_target(action: Action) -> bool
    ensures { result ≡ spec.has_target action }
{
    match action {
        Action::Replace => true,
        Action::Keep => false,
        Action::Drop => false,
        Action::KeepEqual => true,
        Action::DropEqual => true,
        Action::HashMod => true,
        Action::LabelMap => false,
        Action::LabelDrop => false,
        Action::LabelKeep => false,
        Action::Lowercase => true,
        Action::Uppercase => true,
    }
}

fn has_modulus(action: Action) -> bool
    ensures { result ≡ spec.has_modulus action }
{
    match action {
        Action::HashMod => true,
        _ => false,
    }
}

fn has_own_fields(step: &Step) -> bool
    ensures { result ≡ spec.has_own_fields step.now.action step.now }
{
    match step.action {
        Action::KeepEqual => is_comparison(step),
        Action::DropEqual => is_comparison(step),
        Action::LabelDrop => is_pattern_alone(step),
        Action::LabelKeep => is_pattern_alone(step),
        _ => true,
    }
}

fn is_comparison(step: &Step) -> bool
    ensures { result ≡ spec.is_comparison step.now }
{
    has_defaults(step) && is_text(&step.pattern, "(.*)")
}

fn is_pattern_alone(step: &Step) -> bool
    ensures { result ≡ spec.is_pattern_alone step.now }
{
    has_defaults(step) && is_sourceless(step) && step.target.is_empty()
}

fn is_sourceless(step: &Step) -> bool
    ensures { result ≡ spec.is_sourceless step.now.source }
{
    match step.source.as_slice() {
        [] => true,
        _ => false,
    }
}

fn has_defaults(step: &Step) -> bool
    ensures { result ≡ spec.has_defaults step.now }
{
    is_text(&step.separator, ";") && is_text(&step.replacement, "$1") && step.modulus == 0
}

fn is_text(text: &Text, default: &str) -> bool
    ensures { result ≡ bytes_eq text.now default.now }
{
    text.as_bytes() == default.as_bytes()
}
