//! The counter of steps.

ghost use Rattle.std.specs.Prelude.{◌≡◌, ◌<◌};

use op_base::Steps;
use std::marker::Brand;
use std::sync::ledger::{Blank, Ledger};

fn counted<L: Ledger>(blank: Blank)
    requires name { blank.name ≡ L.name }
    requires parts { blank.parts ≡ L.parts }
    requires some { 0 < L.parts }
{
    let mut steps = Steps::<L>::new(blank);
    steps.tick();
}

#[test]
fn steps_are_counted() {
    counted::<Brand>(Blank::new(1));
}
