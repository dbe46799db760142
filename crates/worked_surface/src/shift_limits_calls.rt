// The public calls of `shift_limits`.
ghost use Rattle.std.specs.Prelude.{◌↔◌, ◌≡◌, IfOk, IsTrue, length};
ghost use Rattle.sample_reader.specs.Data.{data_of};
ghost use Rattle.shift_limits.specs.Limits.{LimitsDivide, MeetsLimits};
ghost use Rattle.weights.specs.Odds.{IsMiss};

use sample_reader::Groups;
use shift_limits::ShiftFault;
use std::alloc::Global;
use weights::{Limits, Odds};

/// The limits of the shift between two samples, or why not.
pub fn limits(alloc: Global, groups: &Groups, miss: Odds) -> Result<Limits, ShiftFault>
    requires two { length groups.now.labels ≡ 2 }
    requires miss { IsMiss miss }
    ensures limits { MeetsLimits (data_of groups.now) miss result }
    ensures between { IfOk result (LimitsDivide (data_of groups.now) miss) }
{
    shift_limits::limits(alloc, groups, miss)
}

/// Whether the total is too wide. Faults are two, and no other.
pub fn is_too_wide(fault: ShiftFault) -> bool
    ensures { IsTrue result ↔ (fault ≡ ShiftFault.TooWide) }
{
    match fault {
        ShiftFault::TooWide => true,
        ShiftFault::NoMemory => false,
    }
}
