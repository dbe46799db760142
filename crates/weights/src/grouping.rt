// The grouping law, of all columns and rows.
ghost use Rattle.std.specs.Prelude.{◌≡◌, ℕ, List, Contains};
ghost use Rattle.std.specs.List.{sum};
ghost use Rattle.weights.specs.Grouped.{IsGrouping, tables, table_weight, labellings_giving};

/// The grouping law. Tied subjects may be counted by columns: for every function of a table, its
/// sum over the tables with these margins, each times the table's weight, is its sum over the
/// labellings of single subjects. And the weight of a table, a product of multinomials, is the
/// number of labellings that give it.
pub fn grouping_law()
    ensures law { (columns rows : List ℕ) → sum columns ≡ sum rows → IsGrouping columns rows }
    ensures weight { (columns rows : List ℕ) (table : List (List ℕ)) → sum columns ≡ sum rows
        → Contains (tables columns rows) table
        → table_weight table ≡ labellings_giving table columns rows }
{}
