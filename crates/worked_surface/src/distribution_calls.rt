// The public calls of `distribution`.
ghost use Rattle.std.specs.Prelude.{◌≡◌, int_le, nat_le};
ghost use Rattle.networks.specs.Lines.{WeightsFit, line_sum};
ghost use Rattle.weights.specs.Conditional.{distance};

use stage_network::Spread;

/// The weight of the lines with a value of at most t.
pub fn below(spread: &Spread, t: i128) -> u128
    requires { WeightsFit spread.now }
    ensures { result ≡ line_sum (λ v. int_le v t) spread.now }
{
    distribution::below(spread, t)
}

/// The weight of the lines with a value of at least t.
pub fn above(spread: &Spread, t: i128) -> u128
    requires { WeightsFit spread.now }
    ensures { result ≡ line_sum (λ v. int_le t v) spread.now }
{
    distribution::above(spread, t)
}

/// The weight of the lines with a value that, times q, is at least d apart from c.
pub fn far(spread: &Spread, q: u128, c: i128, d: u128) -> u128
    requires { WeightsFit spread.now }
    ensures { result ≡ line_sum (λ v. nat_le d (distance q c v)) spread.now }
{
    distribution::far(spread, q, c, d)
}
