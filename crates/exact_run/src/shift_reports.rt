// The report of the shift between two samples.
ghost use Rattle.std.specs.Prelude.{◌≡◌};
ghost use Rattle.record_reader.specs.Layouts.{MayPick};
ghost use Rattle.weights.specs.Odds.{IsMiss};
ghost use Rattle.run_outcome.specs.CauseSteps.{Meets};
ghost use Rattle.exact_run.specs.ShiftReports.{shift_of};

use crate::group_reports::{TWO_SAMPLES, groups_of, sizes_of};
use crate::layouts::dropped_told;
use record_reader::Rows;
use report::{Refusal, compose_shift};
use sample_reader::Layout;
use settings::Settings;
use shift_limits::{ShiftFault, limits};
use std::alloc::Global;
use weights::{Bytes, WideOf};

/// The report of the estimate of a shift between two samples with its limits, or the refusal.
pub(crate) fn shift_report(
    alloc: Global,
    settings: &Settings,
    rows: &Rows,
) -> Result<Bytes, Refusal>
    requires picks { MayPick 2 2 settings.now.picks }
    requires miss { IsMiss settings.now.miss }
    ensures { Meets (shift_of settings.now rows.now) result }
{
    let groups = groups_of(alloc, TWO_SAMPLES, settings, rows)?;
    let limits = match limits(alloc, &groups, settings.miss) {
        Ok(limits) => limits,
        Err(ShiftFault::TooWide) => return Err(Refusal::TooWide(WideOf::Total)),
        Err(ShiftFault::NoMemory) => return Err(Refusal::NoMemory),
    };
    let dropped = dropped_told(settings, Layout::Groups, rows);
    let text = compose_shift(alloc, &sizes_of(groups), dropped, &limits)?;
    Ok(text)
}
