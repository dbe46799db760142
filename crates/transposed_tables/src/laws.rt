// The laws of transposed tables.
ghost use Rattle.std.specs.Prelude.{◌≡◌, ℕ, List, Contains, length};
ghost use Rattle.std.specs.List.{sum};
ghost use Rattle.weights.specs.Grouped.{tables};
ghost use Rattle.transposed_tables.specs.Transposed.{transposed};
ghost use Rattle.transposed_tables.specs.TransposedLaws.{AreWeights, ComparesTransposed, IsTransposing};

/// The tables with some sums of columns and of rows, and the tables transposed. Each is transposed
/// once: for every function its sum over the transposed tables is the sum over the tables of the
/// function transposed, and a table transposed twice is the table. Their weights are in the ratio
/// of the numbers of labellings, so one table weighs no more than another exactly where that holds
/// of the two transposed.
pub fn transposed_weights()
    ensures transposing { (columns rows : List ℕ)
        → sum columns ≡ sum rows → IsTransposing columns rows }
    ensures back { (columns rows : List ℕ) (table : List (List ℕ)) → sum columns ≡ sum rows
        → Contains (tables columns rows) table
        → transposed (length columns) (transposed (length rows) table) ≡ table }
    ensures weights { (columns rows : List ℕ) (table : List (List ℕ)) → sum columns ≡ sum rows
        → Contains (tables columns rows) table
        → AreWeights columns rows table (transposed (length rows) table) }
    ensures compared { (columns rows : List ℕ) (table other : List (List ℕ))
        → sum columns ≡ sum rows
        → Contains (tables columns rows) table → Contains (tables columns rows) other
        → ComparesTransposed (length rows) table other }
{}
