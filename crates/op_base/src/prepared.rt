ghost use Rattle.std.specs.Prelude.{◌≡◌, IfOk};
ghost use Rattle.op_base.specs.Matchers.{IsHeld, IsPrepared, found_in, holds_on};

use crate::labels::Labels;
use crate::matcher::{MatchOp, Matcher};
use crate::memory::NoMemory;
use crate::pattern::{Pattern, PatternFault};
use std::alloc::Global;
use std::marker::Model;

/// A matcher whose pattern was read, to be tested on many label sets. A text that is no pattern matches
/// no value. Contracts see the matcher.
#[derive(Drop)]
pub struct PreparedMatcher<'a> {
    matcher: &'a Matcher,
    pattern: HeldPattern<'a>,
}

// Where the pattern of a matcher is, if it has one: here, or with who read it before.
#[derive(Drop)]
enum HeldPattern<'a> {
    Nowhere,
    Here(Pattern),
    Lent(&'a Pattern),
}

impl<'a> Model for PreparedMatcher<'a> {
    ghost use Rattle.op_base.specs.declared.matcher.Matcher.{Matcher as Seen};
    ghost use Rattle.op_base.specs.Matchers.{IsPrepared};

    ghost Value = { Seen };

    ghost view = { λ prepared. prepared.matcher.now };

    ghost invariant = { λ prepared. IsPrepared prepared.matcher.now prepared.pattern };
}

impl<'a> PreparedMatcher<'a> {
    /// The matcher with the pattern that is known, where that is the one of its value. Otherwise the
    /// pattern of a matcher with `=~` or `!~` is read.
    pub fn new(
        alloc: Global,
        matcher: &'a Matcher,
        known: Option<&'a Pattern>,
    ) -> Result<PreparedMatcher<'a>, NoMemory>
        ensures { IfOk result (λ prepared. prepared ≡ matcher.now) }
    {
        let pattern = pattern_of(alloc, matcher, known)?;
        Ok(PreparedMatcher { matcher, pattern })
    }

    /// Whether the matcher holds on the labels.
    pub fn holds(&self, labels: &Labels) -> Result<bool, NoMemory>
        ensures { IfOk result (λ holds. holds ≡ holds_on self.now labels.now) }
    {
        let value = labels.value(self.matcher.name.as_str());
        match self.matcher.op {
            MatchOp::Eq => Ok(self.matcher.value.as_bytes() == value.as_bytes()),
            MatchOp::Ne => Ok(self.matcher.value.as_bytes() != value.as_bytes()),
            MatchOp::Re => finds(&self.pattern, value),
            MatchOp::Nr => Ok(!finds(&self.pattern, value)?),
        }
    }
}

fn pattern_of<'a>(
    alloc: Global,
    matcher: &Matcher,
    known: Option<&'a Pattern>,
) -> Result<HeldPattern<'a>, NoMemory>
    ensures { IfOk result (IsPrepared matcher.now) }
{
    match matcher.op {
        MatchOp::Eq => Ok(HeldPattern::Nowhere),
        MatchOp::Ne => Ok(HeldPattern::Nowhere),
        MatchOp::Re => pattern_in(alloc, matcher.value.as_str(), known),
        MatchOp::Nr => pattern_in(alloc, matcher.value.as_str(), known),
    }
}

// The pattern that the text is, if it is one.
fn pattern_in<'a>(
    alloc: Global,
    text: &str,
    known: Option<&'a Pattern>,
) -> Result<HeldPattern<'a>, NoMemory>
    ensures { IfOk result (IsHeld text.now) }
{
    match known {
        Some(pattern) => lent_or_read(alloc, text, pattern),
        None => read_pattern(alloc, text),
    }
}

fn lent_or_read<'a>(
    alloc: Global,
    text: &str,
    known: &'a Pattern,
) -> Result<HeldPattern<'a>, NoMemory>
    ensures { IfOk result (IsHeld text.now) }
{
    if known.text() == text {
        return Ok(HeldPattern::Lent(known));
    }
    read_pattern(alloc, text)
}

fn read_pattern<'a>(alloc: Global, text: &str) -> Result<HeldPattern<'a>, NoMemory>
    ensures { IfOk result (IsHeld text.now) }
{
    match Pattern::read(alloc, text) {
        Ok(pattern) => Ok(HeldPattern::Here(pattern)),
        Err(PatternFault::BadPattern) => Ok(HeldPattern::Nowhere),
        Err(PatternFault::NoMemory) => Err(NoMemory),
    }
}

fn finds(pattern: &HeldPattern, value: &str) -> Result<bool, NoMemory>
    ensures { IfOk result (λ found. found ≡ found_in pattern.now value.now) }
{
    match pattern {
        HeldPattern::Nowhere => Ok(false),
        HeldPattern::Here(pattern) => pattern.matches(value),
        HeldPattern::Lent(pattern) => pattern.matches(value),
    }
}
