// A count of the calls that failed.
ghost use Rattle.std.specs.Prelude.{◌≡◌, ◌+◌, ◌≤◌, min};
ghost use Rattle.outside.specs.Faults.{Rose, last_count};

use crate::source::Failed;

// How many calls failed; it stays at its last value.
#[derive(Drop)]
pub(crate) struct FaultCount {
    pub(crate) count: u64,
}

impl FaultCount {
    // No call failed.
    pub(crate) fn none() -> FaultCount
        ensures { result.count ≡ 0 }
    {
        FaultCount { count: 0 }
    }

    // Counts a call that failed.
    pub(crate) fn rise(&mut self) -> Failed
        ensures after { self.new.count ≡ min (self.old.count + 1) last_count }
        ensures counts { self.old.count ≤ self.new.count }
        ensures rises { Rose self.old.count self.new.count }
    {
        self.count = self.count.saturating_add(1);
        Failed
    }
}
