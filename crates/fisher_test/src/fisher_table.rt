// A table that is prepared for Fisher's test.
ghost use Rattle.std.specs.Prelude.{◌≡◌, ◌≤◌, pos, Contains, if◌then◌else◌};
ghost use Rattle.weights.specs.declared.TheConstants.{MAX};
ghost use Rattle.weights.specs.declared.tails.Tail.{Tail};
ghost use Rattle.weights.specs.Frames.{IsFrameOf};
ghost use Rattle.weights.specs.Labellings.{labellings, number_of_labellings};
ghost use Rattle.weights.specs.Wide.{Prepares};
ghost use Rattle.networks.specs.Asked.{asks};
ghost use Rattle.networks.specs.Judged.{judge_of};
ghost use Rattle.table_reader.specs.Data.{table_data_of};
ghost use Rattle.table_sums.specs.Tables.{column_sums, is_two_by_two, row_sums};
ghost use Rattle.table_sums.specs.TableSteps.{AreMargins, IsTable};
ghost use Rattle.fisher_test.specs.FisherExact.{fisher_test};
ghost use Rattle.fisher_test.specs.FisherSteps.{FisherFacts, FisherLabels};
ghost use Rattle.fisher_test.specs.FisherMade.{IsWeighed};

use networks::Judge;
use std::alloc::Global;
use std::marker::Model;
use table_reader::Table;
use table_sums::{Margins, margins_of, observed_weight};
use weights::{Frame, Nums, PrepareFault, Rule, Tails, WideOf, multinomial};

/// What is made of a table.
#[derive(Drop)]
pub(crate) struct Weighed {
    pub margins: Margins,
    /// Whether the first cell tells the whole table.
    pub two_by_two: bool,
    /// The observed statistic, its scale, the total and the rule of both sides.
    pub frame: Frame,
}

/// Fisher's exact test of a table whose data are checked. It is seen as the table that it was
/// prepared of.
#[derive(Drop)]
pub struct FisherTable {
    // The table, by which contracts name it.
    rows: u64,
    columns: u64,
    cells: Nums,
    made: Weighed,
}

impl Model for FisherTable {
    ghost use Rattle.table_reader.specs.TableLayout.{TableData};
    ghost use Rattle.table_sums.specs.TableSteps.{table_of};
    ghost use Rattle.fisher_test.specs.FisherMade.{IsWeighed};

    ghost Value = { TableData };

    ghost view = { λ t. table_of t.rows t.columns t.cells };

    ghost invariant = { λ t. IsWeighed (table_of t.rows t.columns t.cells) t.made };
}

/// The tails that Fisher's test of a table has: all of a table of 2 by 2, and else that on both
/// sides alone.
pub fn fisher_tails(table: &Table) -> Tails
    ensures { let test = fisher_test (table_data_of table.now) in
        (tail : Tail) → asks result tail ≡ test.has_tail tail }
{
    let two_by_two = is_two_by_two(table);
    Tails {
        less: two_by_two,
        greater: two_by_two,
        two: true,
    }
}

/// Whether a table has two rows and two columns.
pub fn is_two_by_two(table: &Table) -> bool
    ensures { result ≡ is_two_by_two (table_data_of table.now) }
{
    table.rows == 2 && table.columns == 2
}

// A weight as statistics and keys hold it.
#[inline(always)]
pub(crate) fn held(weight: u128) -> i128
    requires { weight ≤ MAX }
    ensures { result ≡ pos weight }
{
    weight as i128
}

// The first cell of a table of 2 by 2, else the weight.
fn statistic_of(first: u64, weight: u128, two_by_two: bool) -> i128
    requires { weight ≤ MAX }
    ensures { result ≡ if two_by_two then pos first else pos weight }
{
    if two_by_two {
        first as i128
    } else {
        held(weight)
    }
}

// What the statistic is printed over.
fn scale_of(total: u128, two_by_two: bool) -> u128
    ensures { result ≡ if two_by_two then 1 else total }
{
    if two_by_two { 1 } else { total }
}

// What is said of the test of a table with this total.
fn frame_of(table: &Table, total: u128, two_by_two: bool) -> Frame
    requires fitting { IsTable (table_data_of table.now) }
    requires total { total ≡ number_of_labellings (row_sums (table_data_of table.now)) }
    requires square { two_by_two ≡ is_two_by_two (table_data_of table.now) }
    ensures { IsFrameOf (fisher_test (table_data_of table.now)) result }
{
    let weight = observed_weight(table);
    let first = table.cells.as_slice()[0];
    Frame {
        statistic: statistic_of(first, weight, two_by_two),
        scale: scale_of(total, two_by_two),
        total,
        two: Rule::AtMost(held(weight)),
    }
}

impl FisherTable {
    /// Prepares Fisher's exact test of a table.
    ///
    /// # Errors
    /// `TooWide(Total)` where there are more labellings of the subjects than `weights::MAX`. Or
    /// else `NoMemory` where memory runs out.
    pub fn prepare(alloc: Global, table: &Table) -> Result<FisherTable, PrepareFault>
        ensures { Prepares fisher_test (table_data_of table.now) result }
    {
        let margins = margins_of(alloc, table)?;
        let Some(total) = multinomial(margins.rows.as_slice()) else {
            return Err(PrepareFault::TooWide(WideOf::Total));
        };
        let cells = table.cells.copy()?;
        let two_by_two = is_two_by_two(table);
        let frame = frame_of(table, total, two_by_two);
        Ok(FisherTable {
            rows: table.rows,
            columns: table.columns,
            cells,
            made: Weighed {
                margins,
                two_by_two,
                frame,
            },
        })
    }

    /// How many subjects each row has.
    pub fn row_sums(&self) -> &[u64]
        ensures { result.now ≡ row_sums self.now }
    {
        self.made.margins.rows.as_slice()
    }

    /// How many subjects each column has.
    pub fn column_sums(&self) -> &[u64]
        ensures { result.now ≡ column_sums self.now }
    {
        self.made.margins.columns.as_slice()
    }

    /// The rules of its tails.
    pub(crate) fn judge(&self) -> Judge
        ensures { result ≡ judge_of (fisher_test self.now) }
    {
        Judge::of(&self.made().frame)
    }

    /// What is known of it. It does nothing.
    #[inline(always)]
    pub fn facts(&self)
        ensures { FisherFacts self.now }
    {
        let _made = self.made();
    }

    /// What is known of a labelling of it. It does nothing.
    #[inline(always)]
    pub(crate) fn label_facts(&self, _labels: &[u8])
        requires { Contains (labellings (row_sums self.now)) _labels.now }
        ensures { FisherLabels self.now _labels.now }
    {
        let _made = self.made();
    }

    /// How many rows it has.
    pub(crate) fn rows(&self) -> u64
        ensures { result ≡ self.now.rows }
    {
        self.rows
    }

    /// How many columns it has.
    pub(crate) fn columns(&self) -> u64
        ensures { result ≡ self.now.columns }
    {
        self.columns
    }

    /// Its counts by rows.
    pub(crate) fn cells(&self) -> &[u64]
        ensures { result.now ≡ self.now.cells }
    {
        self.cells.as_slice()
    }

    /// What was made of the table.
    pub(crate) fn made(&self) -> &Weighed
        ensures { IsWeighed self.now result.now }
    {
        &self.made
    }
}
