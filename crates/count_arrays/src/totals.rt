// What a row has in all: the weight of its keys, and how many there are.
ghost use Rattle.std.specs.Prelude.{◌≡◌, ℤ, ◌≤◌, length, map};
ghost use Rattle.std.specs.List.{sum};
ghost use Rattle.weights.specs.declared.TheConstants.{MAX};
ghost use Rattle.node_pool.specs.Nodes.{weighted};
ghost use Rattle.count_arrays.specs.Rows.{row_nodes};

use weights::Count;

/// The summed weight of the keys of a row.
pub fn total<C: Count>(cells: &[C]) -> u128
    requires { sum (map C.number cells.now) ≤ MAX }
    ensures { (lowest stride : ℤ)
        → result ≡ weighted (λ k. 1) (row_nodes lowest stride (map C.number cells.now)) }
{
    let mut all = 0;
    for i in 0..cells.len() {
        all += cells[i].value();
    }
    all
}

/// How many keys a row has.
pub fn count_keys<C: Count>(cells: &[C]) -> usize
    ensures { (lowest stride : ℤ)
        → result ≡ length (row_nodes lowest stride (map C.number cells.now)) }
{
    let mut count = 0usize;
    for cell in cells {
        if cell.value() != 0 {
            count += 1;
        }
    }
    count
}
