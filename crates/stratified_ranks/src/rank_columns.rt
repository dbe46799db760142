// The distinct values of a stratum, with the subjects that have them.
ghost use Rattle.std.specs.Prelude.{◌≡◌, ◌≤◌, ◌++◌, OnOk};
ghost use Rattle.midranks.specs.Ties.{values_in};
ghost use Rattle.midranks.specs.declared.TheConstants.{MOST_VALUES};
ghost use Rattle.stratified_ranks.specs.RankRooms.{columns_after};

use midranks::Tie;
use weights::{List, NoMemory};

/// The subjects of a stratum that have one value.
#[derive(Clone, Copy, Debug, PartialEq, Eq)]
pub(crate) struct Column {
    /// How many there are.
    pub size: u64,
    /// How many subjects of the stratum have a greater value.
    pub later: u64,
    /// Their doubled midrank within the stratum.
    pub rank: u64,
    /// How many subjects of the stratum are of the second group.
    pub second: u64,
}

/// Adds the columns of a stratum's tie groups, which have so many subjects, so many of them of the
/// second group.
pub(crate) fn push_columns(
    columns: &mut List<Column>,
    ties: &[Tie],
    subjects: u64,
    second: u64,
) -> Result<(), NoMemory>
    requires all { values_in ties.now ≡ subjects }
    requires few { subjects ≤ MOST_VALUES }
    ensures { OnOk result (columns.new ≡ columns.old ++ columns_after second 0 ties.now) }
{
    let mut before = 0;
    for tie in ties {
        columns.push(Column {
            size: tie.count,
            later: subjects - before - tie.count,
            rank: 2 * before + tie.count + 1,
            second,
        })?;
        before += tie.count;
    }
    Ok(())
}
