// The layouts of samples by their names.

/// The layouts of samples.
#[derive(Clone, Copy, Debug, PartialEq, Eq)]
pub enum Layout {
    /// One value or two in each row, as [`pairs`](crate::pairs) reads them.
    Pairs,
    /// A label and a value in each row, as [`groups`](crate::groups) reads them.
    Groups,
    /// A value for each treatment in each row, as [`blocks`](crate::blocks) reads them.
    Blocks,
    /// `0` or `1` for each treatment in each row, as [`binary_blocks`](crate::binary_blocks) reads
    /// them.
    BinaryBlocks,
    /// A label of a stratum, a label of a group and a value in each row, as
    /// [`strata_groups`](crate::strata_groups) reads them.
    StrataGroups,
    /// Two values in each row, as [`twins`](crate::twins) reads them.
    Twins,
    /// A label in each row, as [`sequence`](crate::sequence) reads them.
    Sequence,
}
