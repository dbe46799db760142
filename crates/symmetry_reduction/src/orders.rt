// When groups of equal size are put in order.
ghost use Rattle.std.specs.Prelude.{◌≡◌};
ghost use Rattle.symmetry_reduction.specs.OrderedGroups.{stay};

/// When groups of equal size are put in order, by what remains of them and, where as many remain,
/// by their sums.
#[derive(Clone, Copy)]
pub enum Order {
    /// After each choice.
    Sums,
    /// Where something remains of each group; where nothing remains of some all stay as they stand.
    SumsWhereAllRemain,
}

/// Whether groups of which so much remains stay as they stand, whatever their sums.
#[inline(always)]
pub fn stay(order: Order, left: &[i128]) -> bool
    ensures { result ≡ stay order left.now }
{
    match order {
        Order::Sums => false,
        Order::SumsWhereAllRemain => left.contains(&0),
    }
}
