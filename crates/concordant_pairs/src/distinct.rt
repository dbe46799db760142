// Whether subjects differ.
ghost use Rattle.std.specs.Prelude.{◌≡◌};
ghost use Rattle.concordant_pairs.specs.ConcordantPairs.{are_distinct};

/// Whether no two subjects are equal, of whom so many have each value that occurs.
pub fn are_distinct(counts: &[u64]) -> bool
    ensures { result ≡ are_distinct counts.now }
{
    for i in 0..counts.len() {
        if counts[i] != 1 {
            return false;
        }
    }
    true
}
