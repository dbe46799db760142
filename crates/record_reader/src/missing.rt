// What is done with rows that miss a field.

/// What is done with a row of data that misses a picked field.
#[derive(Clone, Copy, Debug, PartialEq, Eq)]
pub enum Missing {
    /// It is a fault of the file.
    Refuse,
    /// The row is left out: it is read no further, and no other fault of it counts.
    Drop,
}
