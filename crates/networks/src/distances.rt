// How far numbers are from a centre, and the squares of these distances.
ghost use Rattle.std.specs.Prelude.{◌≡◌, ◌*◌, ◌≤◌};
ghost use Rattle.networks.specs.Distances.{correction, correction_limit, distance_limit, squared};
ghost use Rattle.networks.specs.Distances.{far_square, near_square, square_limit, sum_limit};

/// Of numbers between their ends: the squares of the least and of the greatest distances from a
/// centre, each added.
#[derive(Clone, Copy)]
pub struct SquareBounds {
    pub near: u64,
    pub far: u64,
}

// The square of a distance.
#[inline(always)]
fn square_of(distance: u64) -> u64
    requires { distance ≤ distance_limit }
    ensures is { result ≡ squared distance }
    ensures small { result ≤ square_limit }
{
    distance * distance
}

/// The square of the least distance of the numbers from one to another from a centre.
#[inline(always)]
pub fn near_square(centre: u64, low: u64, high: u64) -> u64
    requires low { low ≤ sum_limit }
    requires centre { centre ≤ sum_limit }
    ensures is { result ≡ near_square centre low high }
    ensures small { result ≤ square_limit }
{
    square_of(low.saturating_sub(centre) + centre.saturating_sub(high))
}

/// The square of the greatest one.
#[inline(always)]
pub fn far_square(centre: u64, low: u64, high: u64) -> u64
    requires high { high ≤ sum_limit }
    requires centre { centre ≤ sum_limit }
    ensures is { result ≡ far_square centre low high }
    ensures small { result ≤ square_limit }
{
    square_of(centre.saturating_sub(low).max(high.saturating_sub(centre)))
}

/// The correction for the mean: what the squares of some numbers that add up to a total have beside
/// those of their distances from a centre.
pub fn correction(numbers: u64, centre: u64, total: u64) -> u64
    requires total { total ≤ sum_limit }
    requires centre { centre ≤ total }
    requires within { numbers * squared centre ≤ 2 * (centre * total) }
    ensures is { result ≡ correction numbers centre total }
    ensures small { result ≤ correction_limit }
{
    2 * (centre * total) - numbers * (centre * centre)
}
