// Where a number stands in a row.
ghost use Rattle.std.specs.Prelude.{◌≡◌, ℕ, ◌*◌, ◌<◌, pos, IfSome};
ghost use Rattle.count_arrays.specs.Rows.{stepped};

// How often a stride goes into a gap; None where it leaves a rest.
fn times_in(stride: u64, gap: u64) -> Option<usize>
    requires { 0 < stride }
    ensures { IfSome result (λ i. i * stride ≡ gap) }
{
    let count = if stride == 1 { gap } else { gap / stride };
    if count * stride != gap {
        return None;
    }
    usize::try_from(count).ok()
}

/// How many strides a number lies behind the lowest of a row. None where it lies below that or
/// between two cells, for a stride of 0, and where it lies 2^64 behind or further.
pub fn place_of(lowest: i128, stride: u64, number: i128) -> Option<usize>
    ensures { IfSome result (λ i. stepped lowest (pos stride) i ≡ number) }
{
    if stride == 0 || number < lowest {
        return None;
    }
    match u64::try_from(number.abs_diff(lowest)) {
        Ok(gap) => times_in(stride, gap),
        Err(_) => None,
    }
}

/// How many cells of a row with one stride lie between two cells of a row with another; None where
/// that is no whole number, and for a stride of 0 where the other is not.
pub fn cells_apart(of: u64, stride: u64) -> Option<usize>
    ensures { IfSome result (λ every. stepped (pos 0) (pos stride) every ≡ pos of) }
{
    if of == stride {
        return Some(1);
    }
    if stride == 0 {
        return None;
    }
    times_in(stride, of)
}
