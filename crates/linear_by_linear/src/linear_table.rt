// A table with scores that is prepared for its test.
ghost use Rattle.std.specs.Prelude.{◌≡◌, length, IfOk};
ghost use Rattle.weights.specs.Conditional.{observed_statistic};
ghost use Rattle.weights.specs.Frames.{IsFrameOf};
ghost use Rattle.weights.specs.Labellings.{number_of_labellings};
ghost use Rattle.weights.specs.Wide.{Prepares};
ghost use Rattle.table_reader.specs.Data.{table_data_of};
ghost use Rattle.table_sums.specs.Tables.{row_sums};
ghost use Rattle.table_sums.specs.TableSteps.{AreScores};
ghost use Rattle.linear_by_linear.specs.LinearByLinear.{linear_says, linear_test};
ghost use Rattle.linear_by_linear.specs.LinearSteps.{IsScored, scored_of};

use label_network::score_choice;
use labelled::Labelled;
use std::alloc::Global;
use std::marker::Model;
use table_reader::Table;
use table_sums::{Margins, margins_of, observed_sum};
use weights::{
    Frame, Ints, NoMemory, Nums, PrepareFault, Rule, WideOf, multinomial, times, total_of,
};

/// A linear-by-linear test whose data are checked.
pub type LinearTable = Labelled<ProductSum>;

/// The sums of a table's rows and of its columns, and their scores.
#[derive(Drop)]
pub(crate) struct ScoredMargins {
    pub margins: Margins,
    pub row_scores: Ints,
    pub column_scores: Ints,
}

/// The sum over a table's subjects of row score times column score. It is seen as the table and the
/// scores that it was prepared of.
#[derive(Drop)]
pub struct ProductSum {
    // The table, by which contracts name it.
    rows: u64,
    columns: u64,
    cells: Nums,
    made: ScoredMargins,
}

impl Model for ProductSum {
    ghost use Rattle.table_sums.specs.TableSteps.{table_of};
    ghost use Rattle.linear_by_linear.specs.LinearByLinear.{ScoredTable};
    ghost use Rattle.linear_by_linear.specs.LinearSteps.{IsScored, scored_of};

    ghost Value = { ScoredTable };

    ghost view = { λ t. scored_of (table_of t.rows t.columns t.cells)
        t.made.row_scores t.made.column_scores };

    ghost invariant = { λ t. IsScored (scored_of (table_of t.rows t.columns t.cells)
        t.made.row_scores t.made.column_scores) t.made };
}

// Scores as they are computed with.
fn widened(alloc: Global, scores: &[i64]) -> Result<Ints, NoMemory>
    ensures { IfOk result (λ wide. wide ≡ scores.now) }
{
    let mut wide = Ints::empty(alloc);
    for score in scores {
        wide.push(i128::from(*score))?;
    }
    Ok(wide)
}

impl ProductSum {
    /// What was made of the table.
    pub(crate) fn made(&self) -> &ScoredMargins
        ensures { IsScored self.now result.now }
    {
        &self.made
    }

    // As many times its mean as there are subjects.
    fn centre(&self) -> i128
        ensures { result ≡ (linear_says self.now).centre }
    {
        let made = self.made();
        times(
            score_choice(made.row_scores.as_slice(), made.margins.rows.as_slice()),
            score_choice(
                made.column_scores.as_slice(),
                made.margins.columns.as_slice(),
            ),
        )
    }

    // What is said of its test, whose observed statistic and number of labellings these are.
    fn frame(&self, statistic: i128, total: u128) -> Frame
        requires statistic { statistic ≡ observed_statistic (linear_test self.now) }
        requires total { total ≡ number_of_labellings (row_sums self.now.table) }
        ensures { IsFrameOf (linear_test self.now) result }
    {
        let factor = total_of(self.made().margins.rows.as_slice()) as u128;
        Frame {
            statistic,
            scale: 1,
            total,
            two: Rule::far(factor, self.centre(), statistic),
        }
    }
}

/// Prepares the linear-by-linear test of a table with a score for each row and for each column.
///
/// # Errors
/// `TooWide(Total)` where there are more labellings of the subjects than `weights::MAX`. Or else
/// `NoMemory` where memory runs out.
pub fn prepare(
    alloc: Global,
    table: &Table,
    row_scores: &[i64],
    column_scores: &[i64],
) -> Result<LinearTable, PrepareFault>
    requires rows_level { length row_scores.now ≡ table.now.rows }
    requires columns_level { length column_scores.now ≡ table.now.columns }
    requires rows { AreScores row_scores.now }
    requires columns { AreScores column_scores.now }
    ensures { Prepares linear_test
        (scored_of (table_data_of table.now) row_scores.now column_scores.now) result }
{
    let margins = margins_of(alloc, table)?;
    let Some(total) = multinomial(margins.rows.as_slice()) else {
        return Err(PrepareFault::TooWide(WideOf::Total));
    };
    let us = widened(alloc, row_scores)?;
    let vs = widened(alloc, column_scores)?;
    let statistic = observed_sum(table, us.as_slice(), vs.as_slice());
    let sum = ProductSum {
        rows: table.rows,
        columns: table.columns,
        cells: table.cells.copy()?,
        made: ScoredMargins {
            margins,
            row_scores: us,
            column_scores: vs,
        },
    };
    let frame = sum.frame(statistic, total);
    Ok(Labelled::framed(sum, frame))
}
