// The three tests of blocks.

/// A test of blocks.
#[derive(Clone, Copy, Debug, PartialEq, Eq)]
pub enum BlockKind {
    /// Friedman's test: the squares of the treatments' sums of ranks within blocks, added.
    Friedman,
    /// Page's test of ordered treatments: the treatments' sums of ranks within blocks, each times
    /// the treatment's number, added.
    Page,
    /// Cochran's test of zeros and ones: the squares of the treatments' numbers of ones, added.
    Cochran,
}
