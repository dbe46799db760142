// Treatments' sums that lean to the greater side of a number's half are reflected.
ghost use Rattle.std.specs.Prelude.{◌≡◌, ◌-◌, ◌<◌, ◌≤◌, length, map, nat_abs, pos};
ghost use Rattle.std.specs.Prelude.{slice_index_or, if◌then◌else◌};
ghost use Rattle.label_network.specs.Meanings.{sizes_in};
ghost use Rattle.rank_assignments.specs.BoundSteps.{AreGained};
ghost use Rattle.rank_assignments.specs.Upright.{cubed, lean, upright};

// A treatment's sum.
#[inline(always)]
fn sum_at(sums: &[i128], place: usize) -> u64
    requires place { place < length sums.now }
    requires sums { AreGained sums.now }
    ensures is { result ≡ nat_abs (slice_index_or sums.now place (pos 0)) }
    ensures small { result ≤ 3000000 }
{
    sums[place] as u64
}

// The cube of a number that is small.
#[inline(always)]
fn cubed(number: u64) -> u128
    requires { number ≤ 3000000 }
    ensures is { result ≡ cubed number }
    ensures small { result ≤ 27000000000000000000 }
{
    number as u128 * (number as u128 * number as u128)
}

// Whether sums lean to the greater side of half a number.
fn lean(number: u64, sums: &[i128]) -> bool
    requires few { length sums.now ≤ 8 }
    requires number { number ≤ 2720000 }
    requires sums { AreGained sums.now }
    ensures { result ≡ lean number (sizes_in sums.now) }
{
    let mut over = 0;
    let mut lacking = 0;
    let mut own = 0;
    for i in 0..sums.len() {
        let sum = sum_at(sums, i);
        over += sum.saturating_sub(number);
        lacking += cubed(number.saturating_sub(sum));
        own += cubed(sum);
    }
    over == 0 && lacking < own
}

// A treatment's sum, reflected or as it is.
#[inline(always)]
fn reflected_sum(is_reflected: bool, number: u64, sums: &[i128], place: usize) -> i128
    requires place { place < length sums.now }
    requires sums { AreGained sums.now }
    ensures { let sum = nat_abs (slice_index_or sums.now place (pos 0)) in
        result ≡ pos (if is_reflected then number - sum else sum) }
{
    let sum = sum_at(sums, place);
    let turned = if is_reflected {
        number.saturating_sub(sum)
    } else {
        sum
    };
    turned as i128
}

/// Writes the sums, reflected where they lean.
pub(crate) fn write_upright(number: u64, sums: &[i128], next: &mut [i128])
    requires few { length sums.now ≤ 8 }
    requires some { 0 < number }
    requires number { number ≤ 2720000 }
    requires sums { AreGained sums.now }
    requires room { length next.old ≡ length sums.now }
    ensures { next.new ≡ map pos (upright number (sizes_in sums.now)) }
{
    let is_reflected = lean(number, sums);
    for i in 0..sums.len() {
        next[i] = reflected_sum(is_reflected, number, sums, i);
    }
}
