// Strata, each a table of two rows and two columns.
ghost use Rattle.std.specs.Prelude.{◌≡◌, ◌/◌, length, IfOk};
ghost use Rattle.strata_cells.specs.Strata.{first_column, first_row, second_row, size};
ghost use Rattle.strata_cells.specs.Strata.{greatest_cell, least_cell, strata_of};
ghost use Rattle.strata_cells.specs.StrataLimits.{IsSmall};

use std::alloc::Global;
use weights::{List, NoMemory};

/// A table with the rows a b and c d.
#[derive(Clone, Copy, Debug, PartialEq, Eq)]
pub struct Stratum {
    pub a: u64,
    pub b: u64,
    pub c: u64,
    pub d: u64,
}

impl Stratum {
    /// How many subjects there are.
    pub fn size(&self) -> u64
        requires { IsSmall self.now }
        ensures { result ≡ size self.now }
    {
        self.a + self.b + self.c + self.d
    }

    /// How many are in the first row.
    pub fn first_row(&self) -> u64
        requires { IsSmall self.now }
        ensures { result ≡ first_row self.now }
    {
        self.a + self.b
    }

    /// How many are in the second row.
    pub fn second_row(&self) -> u64
        requires { IsSmall self.now }
        ensures { result ≡ second_row self.now }
    {
        self.c + self.d
    }

    /// How many are in the first column.
    pub fn first_column(&self) -> u64
        requires { IsSmall self.now }
        ensures { result ≡ first_column self.now }
    {
        self.a + self.c
    }

    /// The least first cell of a table with these sums of rows and columns.
    pub fn least_cell(&self) -> u64
        requires { IsSmall self.now }
        ensures { result ≡ least_cell self.now }
    {
        (self.first_row() + self.first_column()).saturating_sub(self.size())
    }

    /// The greatest one.
    pub fn greatest_cell(&self) -> u64
        requires { IsSmall self.now }
        ensures { result ≡ greatest_cell self.now }
    {
        self.first_row().min(self.first_column())
    }
}

/// The strata with these cells, four for each: by rows.
pub fn strata_of(alloc: Global, cells: &[u64]) -> Result<List<Stratum>, NoMemory>
    ensures { IfOk result (λ strata. strata ≡ strata_of cells.now) }
{
    let mut strata = List::empty(alloc);
    for number in 0..cells.len() / 4 {
        strata.push(Stratum {
            a: cells[4 * number],
            b: cells[4 * number + 1],
            c: cells[4 * number + 2],
            d: cells[4 * number + 3],
        })?;
    }
    Ok(strata)
}
