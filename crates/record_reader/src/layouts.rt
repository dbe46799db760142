// Layouts.
ghost use Rattle.std.specs.Prelude.{◌≡◌};
ghost use Rattle.record_reader.specs.Answers.{IsFieldAnswer};
ghost use Rattle.record_reader.specs.Layouts.{Layout as LayoutMeaning};

use crate::faults::Kind;
use std::alloc::Global;
use weights::NoMemory;

/// Which rows and fields a layout allows.
#[derive(Clone, Copy)]
pub struct Shape {
    /// The least number of fields that are picked of a row.
    pub narrowest: usize,
    /// The greatest number of fields that are picked of a row.
    pub widest: usize,
    /// The fault of a header that is wider, where the fields are read as they stand.
    pub too_wide: Kind,
    /// The greatest number of rows of data.
    pub most_rows: u64,
}

/// Why a field is not read.
#[derive(Clone, Copy)]
pub enum FieldFault {
    /// What is wrong with its text.
    Text(Kind),
    /// Memory ran out.
    NoMemory,
}

impl From<NoMemory> for FieldFault {
    ghost use Rattle.std.specs.Prelude.{◌≡◌};
    ghost use Rattle.record_reader.specs.declared.layouts.FieldFault.TheVariants as fault;

    ghost from_gives = { λ _ result. result ≡ fault.NoMemory };

    fn from(_error: NoMemory) -> FieldFault {
        FieldFault::NoMemory
    }
}

impl From<Kind> for FieldFault {
    ghost use Rattle.std.specs.Prelude.{◌≡◌};
    ghost use Rattle.record_reader.specs.declared.layouts.FieldFault.TheVariants.{Text};

    ghost from_gives = { λ kind result. result ≡ Text kind };

    fn from(kind: Kind) -> FieldFault {
        FieldFault::Text(kind)
    }
}

/// A layout: its shape, and how the fields of its rows are read, one after the other. `S` is what
/// is known so far.
pub trait Layout<S> {
    ghost meaning: { Self → LayoutMeaning S };

    /// Which rows and fields it allows.
    fn shape(&self) -> Shape
        ensures { result ≡ (meaning self.now).shape };

    /// What is known before the first field.
    fn start(&self, alloc: Global) -> S
        ensures { result ≡ (meaning self.now).start };

    /// What is known after a field, by its place among the picked fields of its row, from 0.
    fn with_field(&self, place: usize, text: &[u8], so_far: S) -> Result<S, FieldFault>
        ensures { IsFieldAnswer ((meaning self.now).with_field place text.now so_far) result };

    /// Whether a field is missing, by its place and its text: a row with such a field is one that
    /// may be dropped.
    fn is_missing(&self, place: usize, text: &[u8]) -> bool
        ensures { result ≡ (meaning self.now).is_missing place text.now };

    /// Whether what is known after the last row is enough.
    fn is_enough(&self, so_far: &S) -> bool
        ensures { result ≡ (meaning self.now).is_enough so_far.now };
}
