// Where the keys of a row begin and end, and a row without keys.
ghost use Rattle.std.specs.Prelude.{◌≡◌, ℤ, ◌-◌, ◌<◌, ◌≤◌, [], length, map, take, drop};
ghost use Rattle.std.specs.Prelude.{slice_index_or};
ghost use Rattle.count_arrays.specs.Rows.{row_nodes, stepped};

use weights::Count;

/// Where the first key of a row stands, or the row's end where there is none.
pub fn first_full<C: Count>(cells: &[C]) -> usize
    ensures within { result ≤ length cells.now }
    ensures full { result < length cells.now
        → 0 < slice_index_or (map C.number cells.now) result 0 }
    ensures empty { (lowest stride : ℤ)
        → row_nodes lowest stride (map C.number cells.now)
        ≡ row_nodes (stepped lowest stride result) stride
        (drop result (map C.number cells.now)) }
{
    for i in 0..cells.len() {
        if cells[i].value() != 0 {
            return i;
        }
    }
    cells.len()
}

/// Behind the last key of a row, or 0 where there is none.
pub fn last_full<C: Count>(cells: &[C]) -> usize
    ensures within { result ≤ length cells.now }
    ensures full { 0 < result → 0 < slice_index_or (map C.number cells.now) (result - 1) 0 }
    ensures empty { (lowest stride : ℤ)
        → row_nodes lowest stride (take result (map C.number cells.now))
        ≡ row_nodes lowest stride (map C.number cells.now) }
{
    let mut end = cells.len();
    while end > 0 && cells[end - 1].value() == 0 {
        end -= 1;
    }
    end
}

/// Takes all keys from a row. The cell that has none is given, so that it is made once.
pub fn forget<C: Count>(cells: &mut [C], none: C)
    requires { C.number none ≡ 0 }
    ensures long { length cells.new ≡ length cells.old }
    ensures empty { (lowest stride : ℤ)
        → row_nodes lowest stride (map C.number cells.new) ≡ [] }
{
    for i in 0..cells.len() {
        cells[i] = none;
    }
}
