ghost use Rattle.std.specs.Prelude.{◌≡◌, ◌+◌, ◌-◌, ◌<◌, ◌≤◌, ℕ, List, [], ◌∷◌, ◌++◌, true, length, take, drop, Ok, IfOk, OnOk};
ghost use Rattle.op_edges.specs.Causes.{Rose};
ghost use Rattle.op_edges.specs.Told.{Told};
ghost use Rattle.op_edges.specs.Lines.{newline, most_bytes, shown_as, is_line, IsClean, IsFine};
ghost use Rattle.op_edges.specs.Steps.{gone, MovesOn, IsPassed, IsBegun, StepSays, StepCounts};

use crate::held::{Got, Held, MOST_BYTES};
use crate::lines::Line;
use crate::source::Source;
use memchr::memchr;
use op_base::{List, NoMemory, behind};
use std::alloc::Global;

const NEWLINE: u8 = b'\n';

/// The most bytes of a line.
const MOST_LINE: usize = 1_048_576;

/// What is known of a line that hasn't ended: how many of its bytes were dropped, and how many of
/// the bytes held are no newlines.
#[derive(Clone, Copy, Debug)]
pub struct Begun {
    pub passed: usize,
    pub clean: usize,
}

/// A step gives an answer, or goes on.
#[derive(Drop)]
pub enum Step {
    Gives(Line),
    Goes(Begun),
}

/// Reads on towards an answer: an answer where the bytes held give one, and more bytes else.
pub fn take_step<S: Source>(
    alloc: Global,
    held: &mut Held,
    source: &mut S,
    begun: Begun,
) -> Result<Step, NoMemory>
    requires { IsBegun begun.passed begun.clean held.old }
    ensures says { Told (S.left source.old) (S.left source.new) (λ before after. IfOk result
        (λ step. StepSays begun.passed (gone held.old) step
        (held.old.bytes ++ before) (held.new.bytes ++ after))) }
    ensures sum { Told (S.left source.old) (S.left source.new) (λ before after. OnOk result
        (held.new.came + length after ≡ held.old.came + length before)) }
    ensures counts { IfOk result (λ step. StepCounts begun.passed step held.old held.new) }
    ensures later { S.faults source.old ≤ S.faults source.new }
    ensures failed { result ≡ Ok (Step.Gives Line.Fault)
        → Rose (S.faults source.old) (S.faults source.new) }
{
    let came = held.came();
    let size = held.bytes().len();
    let place = newline_from(held.bytes(), begun.clean);
    if place < size && came - size + place < MOST_BYTES {
        return cut(alloc, held, begun.passed, place);
    }
    if came > MOST_BYTES {
        return Ok(Step::Gives(Line::Limit));
    }
    go_on(alloc, held, source, begun.passed)
}

/// Gives the line that ends with the newline at the place.
fn cut(alloc: Global, held: &mut Held, passed: usize, place: usize) -> Result<Step, NoMemory>
    requires passed { passed + length held.old.bytes ≤ held.old.came }
    requires most { gone held.old + place < most_bytes }
    requires place { place < length held.old.bytes }
    requires clean { IsClean (take place held.old.bytes) }
    requires newline { held.old.bytes
        ≡ take place held.old.bytes ++ newline ∷ drop (place + 1) held.old.bytes }
    ensures says { (left : List ℕ) → IfOk result (λ step. StepSays passed (gone held.old) step
        (held.old.bytes ++ left) (held.new.bytes ++ left)) }
    ensures counts { IfOk result (λ step. StepCounts passed step held.old held.new) }
    ensures came { held.new.came ≡ held.old.came }
    ensures answer { ¬ (result ≡ Ok (Step.Gives Line.Fault)) }
{
    let _came = held.came();
    match line_of(alloc, &held.bytes()[..place], passed + place) {
        Err(NoMemory) => Err(NoMemory),
        Ok(line) => {
            held.skip(place + 1);
            Ok(Step::Gives(line))
        }
    }
}

/// Reads more bytes, where those held are no newlines.
fn go_on<S: Source>(
    alloc: Global,
    held: &mut Held,
    source: &mut S,
    passed: usize,
) -> Result<Step, NoMemory>
    requires most { held.old.came ≤ most_bytes }
    requires clean { IsClean held.old.bytes }
    requires long { IsPassed passed }
    requires passed { passed + length held.old.bytes ≤ held.old.came }
    ensures says { Told (S.left source.old) (S.left source.new) (λ before after. IfOk result
        (λ step. StepSays passed (gone held.old) step
        (held.old.bytes ++ before) (held.new.bytes ++ after))) }
    ensures sum { Told (S.left source.old) (S.left source.new) (λ before after. OnOk result
        (held.new.came + length after ≡ held.old.came + length before)) }
    ensures counts { IfOk result (λ step. StepCounts passed step held.old held.new) }
    ensures later { S.faults source.old ≤ S.faults source.new }
    ensures failed { result ≡ Ok (Step.Gives Line.Fault)
        → Rose (S.faults source.old) (S.faults source.new) }
{
    let size = held.bytes().len();
    match held.fill(source) {
        Err(NoMemory) => Err(NoMemory),
        Ok(Got::Failed) => Ok(Step::Gives(Line::Fault)),
        Ok(Got::Nothing) => last(alloc, held, passed),
        Ok(Got::More) => Ok(Step::Goes(pass_long(held, passed, size))),
    }
}

/// The answer at the end of the source: a last line, or the end.
fn last(alloc: Global, held: &mut Held, passed: usize) -> Result<Step, NoMemory>
    requires most { held.old.came ≤ most_bytes }
    requires clean { IsClean held.old.bytes }
    requires passed { passed + length held.old.bytes ≤ held.old.came }
    ensures says { IfOk result
        (λ step. StepSays passed (gone held.old) step held.old.bytes held.new.bytes) }
    ensures nothing { IfOk result (λ _. held.new.bytes ≡ []) }
    ensures counts { IfOk result (λ step. StepCounts passed step held.old held.new) }
    ensures came { held.new.came ≡ held.old.came }
    ensures answer { ¬ (result ≡ Ok (Step.Gives Line.Fault)) }
{
    let size = held.bytes().len();
    if passed + size == 0 {
        return Ok(Step::Gives(Line::End));
    }
    match line_of(alloc, held.bytes(), passed + size) {
        Err(NoMemory) => Err(NoMemory),
        Ok(line) => {
            held.skip(size);
            Ok(Step::Gives(line))
        }
    }
}

/// Drops the first `size` bytes of a line that is too long by now.
fn pass_long(held: &mut Held, passed: usize, size: usize) -> Begun
    requires within { size ≤ length held.old.bytes }
    requires clean { IsClean (take size held.old.bytes) }
    requires long { IsPassed passed }
    requires passed { passed + length held.old.bytes ≤ held.old.came }
    ensures says { (left : List ℕ) → MovesOn passed result.passed
        (held.old.bytes ++ left) (held.new.bytes ++ left) }
    ensures begun { IsBegun result.passed result.clean held.new }
    ensures gone { gone held.new + passed ≡ gone held.old + result.passed }
    ensures came { held.new.came ≡ held.old.came }
{
    let _came = held.came();
    if passed + size > MOST_LINE {
        held.skip(size);
        return Begun {
            passed: passed + size,
            clean: 0,
        };
    }
    Begun {
        passed,
        clean: size,
    }
}

/// The answer for a line of `size` bytes, of which these weren't dropped.
fn line_of(alloc: Global, bytes: &[u8], size: usize) -> Result<Line, NoMemory>
    requires clean { IsClean bytes.now }
    requires size { length bytes.now ≤ size }
    ensures line { IfOk result (λ line. line ≡ shown_as size bytes.now) }
    ensures fine { IfOk result IsFine }
    ensures is { IfOk result (λ line. is_line line ≡ true) }
{
    if size > MOST_LINE {
        return Ok(Line::Long);
    }
    Ok(Line::Whole(List::from_vec(bytes.to_vec(alloc)?)))
}

/// The place of the first newline of `bytes`, or their number where there is none. The first
/// `clean` of them are no newlines.
fn newline_from(bytes: &[u8], clean: usize) -> usize
    requires within { clean ≤ length bytes.now }
    requires clean { IsClean (take clean bytes.now) }
    ensures least { clean ≤ result }
    ensures within { result ≤ length bytes.now }
    ensures clean { IsClean (take result bytes.now) }
    ensures newline { result < length bytes.now
        → bytes.now ≡ take result bytes.now ++ newline ∷ drop (result + 1) bytes.now }
{
    match memchr(NEWLINE, behind(bytes, clean)) {
        Some(place) => clean + place,
        None => bytes.len(),
    }
}
