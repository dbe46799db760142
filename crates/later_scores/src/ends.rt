// The two ends of what sums of scores can be.
ghost use Rattle.std.specs.Prelude.{◌≡◌, if◌then◌else◌};
ghost use Rattle.later_scores.specs.LaterSteps.{better_of, other_end};

/// Whether sums are to be as little as can be, or as great.
#[derive(Clone, Copy, Debug, PartialEq, Eq)]
pub enum End {
    /// As little.
    Least,
    /// As great.
    Greatest,
}

// The sum with a score taken, or with it passed over, whichever is nearer to the end.
fn better(end: End, taken: i128, passed: i128) -> i128
    ensures { result ≡ better_of end taken passed }
{
    match end {
        End::Least => { if passed < taken { passed } else { taken } }
        End::Greatest => { if passed > taken { passed } else { taken } }
    }
}

/// The better sum where enough scores are left to pass one over, else the one with it taken.
#[inline(always)]
pub fn chosen(end: End, taken: i128, passed: i128, enough: bool) -> i128
    ensures { result ≡ if enough then better_of end taken passed else taken }
{
    if enough {
        better(end, taken, passed)
    } else {
        taken
    }
}

/// The other end.
#[inline(always)]
pub fn other(end: End) -> End
    ensures { result ≡ other_end end }
{
    match end {
        End::Least => End::Greatest,
        End::Greatest => End::Least,
    }
}
