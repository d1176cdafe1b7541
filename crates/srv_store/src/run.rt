ghost use Rattle.std.specs.Prelude.{◌≡◌, ◌≤◌, [], not, length, IfOk, OnOk, OnErr, int_le};
ghost use Rattle.srv_store.specs.Runs as spec;

use crate::places::add_new;
use op_base::{Moment, NoMemory};
use std::alloc::Global;
use std::marker::Model;

/// The readings of one label set in the order of their moments, of which no two are of one moment.
#[derive(Debug, Drop)]
pub(crate) struct Run {
    readings: Vec<(Moment, Option<i64>)>,
}

impl Model for Run {
    ghost use Rattle.srv_store.specs.Runs.{Run as Seen, IsRun};

    ghost Value = { Seen };

    ghost view = { λ run. run.readings.items };

    ghost invariant = { λ run. IsRun run.readings.items };
}

impl Run {
    /// A run without readings.
    pub(crate) fn new(alloc: Global) -> Run
        ensures { result ≡ [] }
    {
        Run {
            readings: Vec::new(alloc),
        }
    }

    /// Puts the reading in its place, where none of its moment is there. The answer says whether it was
    /// put.
    pub(crate) fn add(&mut self, at: Moment, value: Option<i64>) -> Result<bool, NoMemory>
        ensures added { IfOk result (λ added. added ≡ not (spec.has_moment self.old at)) }
        ensures ok { OnOk result (self.new ≡ spec.with_reading self.old at value) }
        ensures err { OnErr result (self.new ≡ self.old) }
    {
        add_new(&mut self.readings, at, value)
    }

    /// The readings from one moment to another, both included.
    pub(crate) fn window(&self, from: &i128, to: &i128) -> &[(Moment, Option<i64>)]
        ensures { result.now ≡ spec.window_in from.now to.now self.now }
    {
        let readings = self.readings.as_slice();
        let start = start_of(readings, from);
        let end = end_of(readings, to);
        if start < end {
            &readings[start..end]
        } else {
            &[]
        }
    }

    /// The last reading from one moment to another, both included.
    pub(crate) fn newest(&self, from: &i128, to: &i128) -> Option<(Moment, Option<i64>)>
        ensures { result ≡ spec.newest_in from.now to.now self.now }
    {
        match self.window(from, to).last() {
            Some(reading) => Some(*reading),
            None => None,
        }
    }
}

// How many readings stand before the moment.
fn start_of(readings: &[(Moment, Option<i64>)], from: &i128) -> usize
    requires { spec.IsRun readings.now }
    ensures { result ≡ spec.front (λ reading. not (int_le from.now reading.0.0)) readings.now }
{
    readings.partition_point(|reading| is_before(reading.0, from))
}

// How many stand at the moment or before it.
fn end_of(readings: &[(Moment, Option<i64>)], to: &i128) -> usize
    requires { spec.IsRun readings.now }
    ensures place { result ≡ spec.front (λ reading. int_le reading.0.0 to.now) readings.now }
    ensures within { result ≤ length readings.now }
{
    readings.partition_point(|reading| is_until(reading.0, to))
}

fn is_before(at: Moment, from: &i128) -> bool
    ensures { result ≡ not (int_le from.now at.0) }
{
    let is_from = *from <= i128::from(at.0);
    !is_from
}

fn is_until(at: Moment, to: &i128) -> bool
    ensures { result ≡ int_le at.0 to.now }
{
    i128::from(at.0) <= *to
}
