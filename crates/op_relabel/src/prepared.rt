ghost use Rattle.std.specs.Prelude.{◌≡◌, IfOk};
ghost use Rattle.op_base.specs.Patterns.{IsPattern, pattern_matches, pattern_expands};
ghost use Rattle.op_relabel.specs.Checks as checks;

use crate::checked::CheckedSteps;
use crate::step::Step;
use op_base::{List, NoMemory, Pattern, PatternFault, Text};
use std::alloc::Global;
use std::marker::Model;

/// A checked step whose pattern was read, to be run on many label sets. Contracts see the step.
#[derive(Drop)]
pub struct PreparedStep<'a> {
    step: &'a Step,
    pattern: Pattern,
}

impl<'a> Model for PreparedStep<'a> {
    ghost use Rattle.std.specs.Prelude.{◌≡◌};
    ghost use Rattle.op_relabel.specs.declared.step.Step.{Step as Seen};
    ghost use Rattle.op_relabel.specs.Checks.{Passes};

    ghost Value = { Seen };

    ghost view = { λ prepared. prepared.step.now };

    ghost invariant = { λ prepared. (prepared.pattern ≡ prepared.step.now.pattern) × Passes prepared.step.now };
}

impl<'a> PreparedStep<'a> {
    /// Reads the pattern of a step. Where `regex` finds it too large, the answer is `NoMemory` too.
    pub fn new(alloc: Global, step: &'a Step) -> Result<PreparedStep<'a>, NoMemory>
        requires { checks.Passes step.now }
        ensures { IfOk result (λ prepared. prepared ≡ step.now) }
    {
        let pattern = read_pattern(alloc, step.pattern.as_str())?;
        Ok(PreparedStep { step, pattern })
    }

    pub(crate) fn step(&self) -> &Step
        ensures step { result.now ≡ self.now }
        ensures passes { checks.Passes self.now }
    {
        self.step
    }

    /// Whether a text matches.
    pub(crate) fn matches(&self, text: &str) -> Result<bool, NoMemory>
        ensures { IfOk result (λ found. found ≡ pattern_matches self.now.pattern text.now) }
    {
        self.pattern.matches(text)
    }

    /// What the replacement stands for at a text, where that matches.
    pub(crate) fn expand(&self, text: &str) -> Result<Option<Text>, NoMemory>
        ensures { IfOk result (λ value. value ≡ pattern_expands self.now.pattern text.now self.now.replacement) }
    {
        self.pattern.expand(text, self.step.replacement.as_str())
    }
}

/// The steps, each with its pattern.
pub fn prepare<'a>(
    alloc: Global,
    steps: &'a CheckedSteps,
) -> Result<List<PreparedStep<'a>>, NoMemory>
    ensures { IfOk result (λ prepared. prepared ≡ steps.now) }
{
    all_prepared(alloc, steps.as_slice())
}

// The same of steps that are known to pass.
pub(crate) fn all_prepared<'a>(
    alloc: Global,
    steps: &'a [Step],
) -> Result<List<PreparedStep<'a>>, NoMemory>
    requires { checks.AllPass steps.now }
    ensures { IfOk result (λ prepared. prepared ≡ steps.now) }
{
    let mut all = List::new(alloc);
    for step in steps {
        all.push(PreparedStep::new(alloc, step)?)?;
    }
    Ok(all)
}

fn read_pattern(alloc: Global, text: &str) -> Result<Pattern, NoMemory>
    requires { IsPattern text.now }
    ensures { IfOk result (λ pattern. pattern ≡ text.now) }
{
    match Pattern::read(alloc, text) {
        Ok(pattern) => Ok(pattern),
        Err(PatternFault::NoMemory) => Err(NoMemory),
        Err(PatternFault::BadPattern) => unreachable!(),
    }
}
