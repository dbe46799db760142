// The strata of a file.
ghost use Rattle.std.specs.Prelude.{◌≡◌, ◌≤◌, [], ◌∷◌, ◌++◌, Ok, IfErr, IfOk};
ghost use Rattle.record_reader.specs.Answers.{IsFaultOf};
ghost use Rattle.record_reader.specs.Layouts.{MayPick};
ghost use Rattle.table_reader.specs.Kept.{AreWholeStrata};
ghost use Rattle.table_reader.specs.StrataLayout.{strata_in};
ghost use Rattle.table_reader.specs.declared.TheConstants.{MOST_COUNT};

use crate::counts::count_in;
use crate::tables::Strata;
use record_reader::{
    FieldFault, Kind, Layout, LayoutFault, MOST_ROWS, Missing, Picks, Rows, Shape, read_in,
};
use std::alloc::Global;
use std::marker::Model;
use weights::{NoMemory, Nums};

// The counts of the strata so far.
#[derive(Drop)]
struct CountsSoFar {
    cells: Nums,
}

impl Model for CountsSoFar {
    ghost use Rattle.std.specs.Prelude.{List, ℕ};
    ghost use Rattle.table_reader.specs.Counts.{AreCounts};

    ghost Value = { List ℕ };

    ghost view = { λ a. a.cells };

    ghost invariant = { λ a. AreCounts a.cells };
}

impl CountsSoFar {
    fn empty(alloc: Global) -> CountsSoFar
        ensures { result ≡ [] }
    {
        CountsSoFar {
            cells: Nums::empty(alloc),
        }
    }

    // These with one count more.
    fn with_count(self, count: u64) -> Result<CountsSoFar, NoMemory>
        requires { count ≤ MOST_COUNT }
        ensures { IfOk result (λ more. more ≡ self ++ count ∷ []) }
    {
        let CountsSoFar { mut cells } = self;
        cells.push(count)?;
        Ok(CountsSoFar { cells })
    }

    // The strata of these, where they are all.
    fn into_strata(self) -> Strata
        requires { AreWholeStrata self }
        ensures { result.cells ≡ self }
    {
        Strata { cells: self.cells }
    }
}

// The layout of strata: a name and four counts in each row.
#[derive(Clone, Copy)]
struct StrataLayout;

impl Layout<CountsSoFar> for StrataLayout {
    ghost use Rattle.table_reader.specs.StrataLayout.{strata_layout};

    ghost meaning = { λ _. strata_layout };

    fn shape(&self) -> Shape {
        Shape {
            narrowest: 5,
            widest: 5,
            too_wide: Kind::FieldCount,
            most_rows: MOST_ROWS,
        }
    }

    fn start(&self, alloc: Global) -> CountsSoFar {
        CountsSoFar::empty(alloc)
    }

    fn with_field(
        &self,
        place: usize,
        text: &[u8],
        so_far: CountsSoFar,
    ) -> Result<CountsSoFar, FieldFault> {
        if place == 0 {
            return Ok(so_far);
        }
        Ok(so_far.with_count(count_in(text)?)?)
    }

    fn is_missing(&self, _place: usize, _text: &[u8]) -> bool {
        false
    }

    fn is_enough(&self, so_far: &CountsSoFar) -> bool {
        so_far.cells.len() > 0
    }
}

/// The strata of a file, in time linear in it: each row of data is a stratum, with a name, which is
/// not read, and the counts a, b, c and d of the table whose rows are a, b and c, d.
///
/// A count is one digit or more, with spaces and tabs around them ignored, and at most
/// [`MOST_COUNT`](crate::MOST_COUNT). There are 1 to [`MOST_ROWS`] rows below the header, whose
/// texts are not used. Rows and fields have numbers from 1, so the header is row 1.
///
/// # Errors
/// `Columns` where there is a header and a listed field is not in it. Else `At` with the first
/// fault of the file: `NoHeader` where it has no row, `FieldCount` where its header has not five
/// fields and none are listed, and then, row by row, `TooManyRows`, `FieldCount` where the row is
/// not as wide as the header, and `NotCount` at the first of its picked fields behind the name, in
/// the order picked, that is not a count. `EndsEarly` at the header where no row stands below it.
/// Or else `NoMemory` where memory runs out.
pub fn strata(alloc: Global, rows: &Rows, picks: &Picks) -> Result<Strata, LayoutFault>
    requires { MayPick 5 5 picks.now }
    ensures ok { IfOk result (λ strata. strata_in picks.now rows.now ≡ Ok strata.cells) }
    ensures fault { IfErr result (IsFaultOf (strata_in picks.now rows.now)) }
{
    Ok(read_in(alloc, &StrataLayout, Missing::Refuse, rows, picks)?.into_strata())
}
