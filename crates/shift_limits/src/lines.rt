// The distribution of the rank sum over all labellings of two samples without ties.
ghost use Rattle.std.specs.Prelude.{◌≡◌, ◌≤◌, length, map, pos, IfOk};
ghost use Rattle.std.specs.List.{range_with_len};
ghost use Rattle.weights.specs.Labellings.{number_of_labellings};
ghost use Rattle.weights.specs.declared.TheConstants.{MAX};
ghost use Rattle.record_reader.specs.declared.TheConstants.{MOST_ROWS};
ghost use Rattle.sample_reader.specs.Data.{data_of};
ghost use Rattle.sample_reader.specs.Kept.{AreInRange};
ghost use Rattle.shift_limits.specs.LimitSteps.{AreRankLines, untied};

use networks::{Spread, Way};
use sample_reader::Groups;
use scores::ScoreKind;
use std::alloc::Global;
use two_sample_tests::{distribution, prepare};
use weights::{Ints, NoMemory, PrepareFault};

// The values 0, 1, 2 and so on.
fn counted_values(alloc: Global, count: usize) -> Result<Ints, NoMemory>
    requires { count ≤ MOST_ROWS }
    ensures values { IfOk result (λ values. values ≡ map pos (range_with_len 0 count)) }
    ensures in_range { IfOk result AreInRange }
{
    let mut values = Ints::empty(alloc);
    for i in 0..count {
        values.push(i as i128)?;
    }
    Ok(values)
}

// The same groups with other values, no two of which are equal.
fn untied(alloc: Global, groups: &Groups) -> Result<Groups, NoMemory>
    ensures { IfOk result (λ made. data_of made ≡ untied (data_of groups.now)) }
{
    Ok(Groups {
        labels: groups.labels.copy()?,
        sizes: groups.sizes.copy()?,
        members: groups.members.copy()?,
        values: counted_values(alloc, groups.values.len())?,
    })
}

/// The lines of the second sample's doubled rank sum, over all labellings with the groups' sizes.
/// Two times the number of subjects times the doubled ranks of at most 10,000 is far below
/// [`weights::MAX`], so the test is prepared where its total fits.
pub(crate) fn rank_lines(alloc: Global, groups: &Groups) -> Result<Spread, NoMemory>
    requires two { length groups.now.labels ≡ 2 }
    requires fits { number_of_labellings groups.now.sizes ≤ MAX }
    ensures { IfOk result (AreRankLines groups.now.sizes) }
{
    let made = untied(alloc, groups)?;
    let problem = match prepare(alloc, ScoreKind::Wilcoxon, &made) {
        Ok(problem) => problem,
        Err(PrepareFault::NoMemory) => return Err(NoMemory),
        Err(PrepareFault::TooWide(_)) => unreachable!(),
    };
    distribution(alloc, &problem, Way::Network)
}
