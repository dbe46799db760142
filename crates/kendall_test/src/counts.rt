// The choices among counts one after another, and what each leaves.
ghost use Rattle.std.specs.Prelude.{◌≡◌, ◌≤◌, [], ◌∷◌, length, true, if◌then◌else◌};
ghost use Rattle.std.specs.List.{sum, Contains};
ghost use Rattle.weights.specs.Grouped.{choices, fits, minus};
ghost use Rattle.label_network.specs.ChoiceOrder.{later_choices};
ghost use Rattle.label_network.specs.LabelSteps.{AreSizes, least};
ghost use Rattle.label_network.specs.Meanings.{sizes_in};

use label_network::{first_counts, next_counts, write_sizes};

/// Takes a choice from the counts that it is of.
pub(crate) fn take_choice(counts: &mut [u64], choice: &[u64])
    requires { fits choice.now counts.old ≡ true }
    ensures { counts.new ≡ minus counts.old choice.now }
{
    for i in 0..counts.len() {
        counts[i] -= choice[i];
    }
}

// Writes counts as the numbers of a key.
fn write_counts(counts: &[u64], sizes: &mut [i128])
    requires few { sum counts.now ≤ 120 }
    requires room { length sizes.old ≡ length counts.now }
    ensures sizes { AreSizes sizes.new }
    ensures read { sizes_in sizes.new ≡ counts.now }
{
    write_sizes(counts, sizes);
}

/// Writes the first choice of so many subjects.
pub(crate) fn first_choice(total: u64, counts: &[u64], choice: &mut [u64])
    requires few { sum counts.now ≤ 120 }
    requires short { length counts.now ≤ 120 }
    requires enough { total ≤ sum counts.now }
    requires room { length choice.old ≡ length counts.now }
    ensures { choice.new ≡ least total counts.now }
{
    let mut numbers = [0i128; 120];
    let sizes = &mut numbers[..counts.len()];
    write_counts(counts, sizes);
    first_counts(total, sizes, choice);
}

/// Moves on to the next choice, where there is one.
pub(crate) fn next_choice(total: u64, counts: &[u64], choice: &mut [u64]) -> bool
    requires few { sum counts.now ≤ 120 }
    requires short { length counts.now ≤ 120 }
    requires allowed { Contains (choices total counts.now) choice.old }
    ensures { let rest = later_choices total counts.now choice.new in
        later_choices total counts.now choice.old ≡ (if result then choice.new ∷ rest else []) }
{
    let mut numbers = [0i128; 120];
    let sizes = &mut numbers[..counts.len()];
    write_counts(counts, sizes);
    next_counts(total, sizes, choice)
}
