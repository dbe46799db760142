// Why a problem is not prepared.
use crate::NoMemory;
use thiserror::Error;

/// Which number of a test passes [`MAX`](crate::MAX).
#[derive(Clone, Copy, Debug, PartialEq, Eq)]
pub enum WideOf {
    /// The weight of all rearrangements.
    Total,
    /// The bound of the statistic.
    Statistic,
}

/// Why a problem is not prepared.
#[derive(Clone, Copy, Debug, PartialEq, Eq, Error)]
pub enum PrepareFault {
    /// A number of the test passes the greatest weight.
    #[error("too wide")]
    TooWide(WideOf),
    /// Memory ran out.
    #[error("no memory")]
    NoMemory,
}

impl From<NoMemory> for PrepareFault {
    ghost use Rattle.std.specs.Prelude.{◌≡◌};
    ghost use Rattle.weights.specs.declared.wide.PrepareFault.TheVariants as fault;

    ghost from_gives = { λ _ result. result ≡ fault.NoMemory };

    fn from(_error: NoMemory) -> PrepareFault {
        PrepareFault::NoMemory
    }
}
