ghost use Rattle.std.specs.Prelude.{◌≡◌, ◌≢◌, ◌++◌, ◌∷◌, [], IsTrue, ◌↔◌, Some, true, IfErr, OnOk, OnErr};
ghost use Rattle.op_base.specs.Names.{is_label_name};
ghost use Rattle.op_relabel.specs.Checks as checks;
ghost use Rattle.op_relabel.specs.Steps as spec;

use crate::checking::{StepFault, check};
use crate::step::Step;
use op_base::{List, NoMemory};
use std::alloc::Global;
use std::marker::Model;

/// Steps that were checked, so that they can be run. Contracts see the list of the steps.
#[derive(Debug, PartialEq, Eq, Drop)]
pub struct CheckedSteps {
    steps: List<Step>,
}

impl Model for CheckedSteps {
    ghost use Rattle.std.specs.Prelude as seen;
    ghost use Rattle.op_relabel.specs.declared.step.Step.{Step as Seen};
    ghost use Rattle.op_relabel.specs.Checks.{AllPass};

    ghost Value = { seen.List Seen };

    ghost view = { λ it. it.steps };

    ghost invariant = { λ it. AllPass it.steps };

    ghost inverse = { λ steps. record { steps = steps } };
}

impl CheckedSteps {
    /// No steps.
    pub fn new(alloc: Global) -> CheckedSteps
        ensures { result ≡ [] }
    {
        CheckedSteps {
            steps: List::new(alloc),
        }
    }

    pub fn is_empty(&self) -> bool
        ensures { IsTrue result ↔ (self.now ≡ []) }
    {
        self.steps.is_empty()
    }

    pub fn as_slice(&self) -> &[Step]
        ensures steps { result.now ≡ self.now }
        ensures passes { checks.AllPass self.now }
    {
        self.steps.as_slice()
    }

    /// Adds the step, where [`check`] lets it pass.
    pub fn push(&mut self, alloc: Global, step: Step) -> Result<(), StepFault>
        ensures ok { OnOk result (self.new ≡ self.old ++ step ∷ []) }
        ensures passes { OnOk result (checks.Passes step) }
        ensures refused { IfErr result (λ fault. fault ≢ StepFault.NoMemory → checks.first_fault step ≡ Some fault) }
        ensures err { OnErr result (self.new ≡ self.old) }
    {
        check(alloc, &step)?;
        self.add(step)?;
        Ok(())
    }

    /// Adds the step that gives the value of the label `source` to the label `target`.
    pub fn copy_label(&mut self, alloc: Global, source: &str, target: &str) -> Result<(), NoMemory>
        requires { is_label_name target.now ≡ true }
        ensures ok { OnOk result (self.new ≡ self.old ++ spec.copy_step source.now target.now ∷ []) }
        ensures err { OnErr result (self.new ≡ self.old) }
    {
        let step = Step::copy_label(alloc, source, target)?;
        self.add(step)
    }

    /// Adds the step that gives a value to the label `target`, as [`Step::put_value`] has it.
    pub fn put_value(&mut self, alloc: Global, target: &str, value: &str) -> Result<(), NoMemory>
        requires { is_label_name target.now ≡ true }
        ensures ok { OnOk result (self.new ≡ self.old ++ spec.put_step target.now value.now ∷ []) }
        ensures err { OnErr result (self.new ≡ self.old) }
    {
        let step = Step::put_value(alloc, target, value)?;
        self.add(step)
    }

    fn add(&mut self, step: Step) -> Result<(), NoMemory>
        requires { checks.Passes step }
        ensures ok { OnOk result (self.new ≡ self.old ++ step ∷ []) }
        ensures err { OnErr result (self.new ≡ self.old) }
    {
        self.steps.push(step)?;
        Ok(())
    }
}
