ghost use Rattle.std.specs.Prelude.{◌≡◌, ◌≤◌, [], is_some, unwrap_or};
ghost use Rattle.std.specs.Option.{option_map_or};
ghost use Rattle.serde_json.specs.View.{number_view};
ghost use Rattle.op_base.specs.Moments.{IsTick};
ghost use Rattle.op_manifest.specs.Trees.{data_of};
ghost use Rattle.op_manifest.specs.Shapes as shapes;
ghost use Rattle.op_manifest.specs.Checks as check;
ghost use Rattle.op_input.specs.Events.{HasTime, event_of, tick, bad};
ghost use Rattle.op_input.specs.InputLines as lines;
ghost use Rattle.op_input.specs.Ticks as spec;

use crate::event::InputEvent;
use op_base::{LAST_MOMENT, Moment, Text};
use op_manifest::{Shape, ShapeRule, Tree, number_within, tell};
use serde_json::Number;
use std::alloc::Global;

/// The moment that the value is: a whole number from 0 to 2^53.
pub fn noted_moment(found: &mut Option<Shape>, alloc: Global, tree: &Tree) -> Moment
    ensures wrongs { found.new ≡ shapes.later found.old (check.whole [] (data_of tree.now)) }
    ensures moment { result ≡ spec.moment_of (data_of tree.now) }
    ensures within { IsTick result }
{
    Moment(noted_whole(found, alloc, tree) as i64)
}

/// The tick that the value is, or its breach.
#[tactic(auto, using(op_manifest::proofs::ShapeLemmas::later_first))]
pub fn read_tick(alloc: Global, tree: &Tree) -> InputEvent
    ensures event { event_of result ≡ lines.tick_event (data_of tree.now) }
    ensures time { HasTime result }
{
    let mut found = None;
    let moment = noted_moment(&mut found, alloc, tree);
    tick_or_breach(moment, found)
}

fn tick_or_breach(moment: Moment, found: Option<Shape>) -> InputEvent
    requires { IsTick moment }
    ensures event { event_of result ≡ option_map_or bad found (tick moment) }
    ensures time { HasTime result }
{
    match found {
        Some(shape) => InputEvent::Bad(shape),
        None => InputEvent::Tick(moment),
    }
}

#[tactic(auto, unfolding(op_manifest::specs::Checks::whole))]
fn noted_whole(found: &mut Option<Shape>, alloc: Global, tree: &Tree) -> u64
    ensures wrongs { found.new ≡ shapes.later found.old (check.whole [] (data_of tree.now)) }
    ensures whole { result ≡ spec.whole_of (data_of tree.now) }
    ensures within { result ≤ LAST_MOMENT }
{
    match tree.as_number() {
        Some(number) => whole_or_breach(found, alloc, number),
        None => {
            tell(found, ShapeRule::WRONG_TYPE, Text::new(alloc));
            0
        }
    }
}

#[tactic(auto, using(op_manifest::proofs::ShapeLemmas::later_none))]
fn whole_or_breach(found: &mut Option<Shape>, alloc: Global, number: &Number) -> u64
    ensures wrongs { found.new ≡ shapes.later found.old
        (shapes.unless (is_some (check.number_within (number_view number.now))) ShapeRule.BAD_NUMBER []) }
    ensures whole { result ≡ unwrap_or (check.number_within (number_view number.now)) 0 }
    ensures within { result ≤ LAST_MOMENT }
{
    match number_within(number) {
        Some(whole) => whole,
        None => {
            tell(found, ShapeRule::BAD_NUMBER, Text::new(alloc));
            0
        }
    }
}
