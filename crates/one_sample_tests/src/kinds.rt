// How differences are scored.

/// What a difference that is not zero counts for, by its absolute value.
#[derive(Clone, Copy, Debug, PartialEq, Eq)]
pub enum SignKind {
    /// The doubled midrank of the absolute difference, over 2 (Wilcoxon, Biometrics Bulletin 1,
    /// 1945).
    SignedRank,
    /// 1, so that the plus marks are counted (the sign test).
    Sign,
    /// The absolute difference itself (Fisher, The Design of Experiments, 1935).
    RawSigned,
}
