ghost use Rattle.std.specs.Prelude.{◌≡◌, ◌==◌, ◌<◌, ◌≤◌, ◌^◌};
ghost use Rattle.std.specs.List.{list_any};
ghost use Rattle.op_edges.specs.Causes.{next_count};

use op_base::List;

/// The numbers of the calls that fail, counted from 1, how many calls came and how many failed. The
/// counts stay at their last value.
#[derive(Debug, Drop)]
pub struct Plan {
    pub fails: List<u64>,
    pub calls: u64,
    pub faults: u64,
}

impl Plan {
    ghost use Rattle.op_edges.specs.Plans.{fresh_plan, fails_next, after_call};

    pub fn new(fails: List<u64>) -> Plan
        ensures { result ≡ fresh_plan fails }
    {
        Plan {
            fails,
            calls: 0,
            faults: 0,
        }
    }

    /// Whether the next call is one of those that fail.
    pub fn fails_next(&self) -> bool
        ensures { result ≡ fails_next self.now }
    {
        is_listed(self.fails.as_slice(), self.calls.saturating_add(1))
    }

    /// Counts a call, and a fault where it failed.
    pub fn count(&mut self, failed: bool)
        ensures counts { self.new ≡ after_call failed self.old }
        ensures later { self.old.faults ≤ self.new.faults }
        ensures counted { self.new.faults < 2 ^ 64 }
    {
        let faults = self.faults;
        self.calls = self.calls.saturating_add(1);
        if failed {
            self.faults = faults.saturating_add(1);
        }
    }
}

fn is_listed(numbers: &[u64], number: u64) -> bool
    ensures { result ≡ list_any (λ listed. listed == number) numbers.now }
{
    numbers.iter().any(|listed| *listed == number)
}
