// The columns of values in ascending order.
ghost use Rattle.std.specs.Prelude.{◌≡◌, map, IfOk};
ghost use Rattle.pooled_columns.specs.PooledColumns.{column_sizes};

use midranks::{Tie, tie_groups};
use std::alloc::Global;
use weights::{Ints, NoMemory, Nums};

/// A column for each distinct value, ascending: how many subjects have it, and its score.
#[derive(Drop)]
pub struct Columns {
    pub sizes: Nums,
    pub scores: Ints,
}

// How many values each tie group has.
fn sizes(alloc: Global, ties: &[Tie]) -> Result<Nums, NoMemory>
    ensures { IfOk result (λ sizes. sizes ≡ map (λ t. t.count) ties.now) }
{
    let mut sizes = Nums::empty(alloc);
    for tie in ties {
        sizes.push(tie.count)?;
    }
    Ok(sizes)
}

/// The sizes alone of the columns of values in ascending order.
pub fn column_sizes(alloc: Global, values: &[i128]) -> Result<Nums, NoMemory>
    ensures { IfOk result (λ sizes. sizes ≡ column_sizes values.now) }
{
    let groups = tie_groups(alloc, values)?;
    sizes(alloc, groups.as_slice())
}

/// The columns of tie groups with these scores.
pub(crate) fn columns_of(alloc: Global, ties: &[Tie], scores: Ints) -> Result<Columns, NoMemory>
    ensures sizes { IfOk result (λ columns. columns.sizes ≡ map (λ t. t.count) ties.now) }
    ensures scores { IfOk result (λ columns. columns.scores ≡ scores) }
{
    let sizes = sizes(alloc, ties)?;
    Ok(Columns { sizes, scores })
}
