// The values of a sample.
ghost use Rattle.std.specs.Prelude.{◌≡◌, length, IfOk};
ghost use Rattle.shift_limits.specs.Differences.{labelled_values};

use std::alloc::Global;
use weights::{Ints, NoMemory};

/// The values with a label.
pub(crate) fn labelled_values(
    alloc: Global,
    label: u64,
    values: &[i128],
    members: &[u64],
) -> Result<Ints, NoMemory>
    requires { length members.now ≡ length values.now }
    ensures { IfOk result (λ chosen. chosen ≡ labelled_values label values.now members.now) }
{
    let mut chosen = Ints::empty(alloc);
    for i in 0..values.len() {
        let value = values[i];
        if members[i] == label {
            chosen.push(value)?;
        }
    }
    Ok(chosen)
}
