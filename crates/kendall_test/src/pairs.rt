// Pairs of subjects, counted by their second values.
ghost use Rattle.std.specs.Prelude.{◌≡◌, ◌≤◌, drop, length, pos};
ghost use Rattle.std.specs.List.{sum};
ghost use Rattle.kendall_test.specs.KendallNetwork.{concordance, concordant_pairs, open_pairs};

// The pairs of a subject here and a later one whose second value is greater, from a place on.
fn concordant_from(here: &[u64], later: &[u64], place: usize) -> u64
    requires long { length here.now ≡ length later.now }
    requires few_here { sum here.now ≤ 120 }
    requires few_later { sum later.now ≤ 120 }
    requires within { place ≤ length here.now }
    ensures { result ≡ concordant_pairs (drop place here.now) (drop place later.now) }
{
    let mut pairs: u64 = 0;
    let mut greater: u64 = 0;
    let mut i = here.len();
    while i > place {
        i -= 1;
        pairs += here[i] * greater;
        greater += later[i];
    }
    pairs
}

/// What subjects add with those that are placed later.
pub(crate) fn concordance(here: &[u64], later: &[u64]) -> i128
    requires long { length here.now ≡ length later.now }
    requires few_here { sum here.now ≤ 120 }
    requires few_later { sum later.now ≤ 120 }
    ensures { result ≡ concordance here.now later.now }
{
    concordant_from(here, later, 0) as i128 - concordant_from(later, here, 0) as i128
}

/// The pairs of subjects of two columns from a stage on.
pub(crate) fn open_pairs(columns: &[u64], stage: usize) -> i128
    requires few { sum columns.now ≤ 120 }
    requires within { stage ≤ length columns.now }
    ensures { result ≡ pos (open_pairs columns.now stage) }
{
    concordant_from(columns, columns, stage) as i128
}
