// Why there are no limits.
use thiserror::Error;
use weights::NoMemory;

/// Why there are no limits of a shift.
#[derive(Clone, Copy, Debug, PartialEq, Eq, Error)]
pub enum ShiftFault {
    /// There are more labellings than [`weights::MAX`].
    #[error("too many labellings")]
    TooWide,
    /// Memory ran out.
    #[error("no memory")]
    NoMemory,
}

impl From<NoMemory> for ShiftFault {
    ghost use Rattle.std.specs.Prelude.{◌≡◌};
    ghost use Rattle.shift_limits.specs.declared.faults.ShiftFault.TheVariants as fault;

    ghost from_gives = { λ _ result. result ≡ fault.NoMemory };

    fn from(_error: NoMemory) -> ShiftFault {
        ShiftFault::NoMemory
    }
}
