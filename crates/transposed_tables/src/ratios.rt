// Parts of totals that are in the same ratio.
ghost use Rattle.std.specs.Prelude.{◌≡◌, ◌*◌, ◌%◌, ◌<◌, ◌≤◌};

use weights::gcd;

/// The part of a total that is to it as a part of another total is to that one, where it is a whole
/// number. What the two totals have in common is divided out first, so that no number on the way
/// passes the greater total.
pub fn in_ratio(part: u128, of: u128, total: u128) -> u128
    requires some { 0 < of }
    requires within { part ≤ of }
    requires whole { (total * part) % of ≡ 0 }
    ensures { result * of ≡ part * total }
{
    let common = gcd(total, of);
    (total / common) * (part / (of / common))
}
