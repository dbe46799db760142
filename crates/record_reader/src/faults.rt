// What may be wrong with the data of a file.
ghost use Rattle.std.specs.Prelude.{◌≡◌};

use std::fmt;
use thiserror::Error;
use weights::NoMemory;

/// The kinds of fault that the data of a file may have.
#[derive(Clone, Copy, Debug, PartialEq, Eq)]
pub enum Kind {
    /// The file has no record.
    NoHeader,
    /// A row has another number of fields than the layout or the header wants.
    FieldCount,
    /// A value is not a number text.
    NotNumber,
    /// A number text has no value in range.
    OutOfRange,
    /// A value is empty or `NA`, or a label is empty.
    Missing,
    /// A label comes after as many others as the layout allows.
    GroupTooMany,
    /// The rows end before the layout has what it needs.
    EndsEarly,
    /// A row comes after the last one that the layout allows.
    TooManyRows,
    /// A binary value is neither `0` nor `1`.
    NotBinary,
    /// The header has more fields than the layout allows.
    TooManyColumns,
    /// A count is not one or more digits, or is too large.
    NotCount,
}

impl Kind {
    ghost use Rattle.record_reader.specs.Faults.{has_field, kind_text};

    /// The words that tell this kind.
    pub fn text(self) -> &'static str
        ensures { result.now ≡ kind_text self }
    {
        match self {
            Kind::NoHeader => "no header",
            Kind::FieldCount => "field count",
            Kind::NotNumber => "not a number",
            Kind::OutOfRange => "out of range",
            Kind::Missing => "missing",
            Kind::GroupTooMany => "a group too many",
            Kind::EndsEarly => "ends too early",
            Kind::TooManyRows => "too many rows",
            Kind::NotBinary => "not 0 or 1",
            Kind::TooManyColumns => "too many columns",
            Kind::NotCount => "not a count",
        }
    }

    /// Whether a fault of this kind is one of a single field, and not of a whole row.
    pub fn has_field(self) -> bool
        ensures { result ≡ has_field self }
    {
        match self {
            Kind::NotNumber
            | Kind::OutOfRange
            | Kind::Missing
            | Kind::GroupTooMany
            | Kind::NotBinary
            | Kind::NotCount => true,
            Kind::NoHeader
            | Kind::FieldCount
            | Kind::EndsEarly
            | Kind::TooManyRows
            | Kind::TooManyColumns => false,
        }
    }
}

/// A fault in the data of a file, and where it is. Its message is as `row 4 field 2: not a number`,
/// or as `row 3: field count` where the kind has no field.
#[derive(Clone, Copy, Debug, PartialEq, Eq, Error)]
#[error("{place}: {text}", place = self.place(), text = self.kind.text())]
pub struct DataFault {
    /// The number of the row. The header is row 1.
    pub row: u64,
    /// The number of the field in its row, from 1, or 0 where the kind has no field.
    pub field: u64,
    /// What is wrong there.
    pub kind: Kind,
}

impl DataFault {
    fn place(&self) -> Place {
        Place {
            row: self.row,
            field: self.kind.has_field().then_some(self.field),
        }
    }
}

// A place in a file as its fault's message tells it.
#[derive(Clone, Copy)]
struct Place {
    row: u64,
    field: Option<u64>,
}

impl fmt::Display for Place {
    ghost use Rattle.std.specs.Prelude.{Some};
    ghost use Rattle.record_reader.specs.Faults.{place_text};

    ghost output = { λ place. Some (place_text place.row place.field) };

    fn fmt<W: fmt::Write>(&self, f: &mut fmt::Formatter<W>) -> fmt::Result {
        match self.field {
            Some(field) => write!(f, "row {} field {field}", self.row),
            None => write!(f, "row {}", self.row),
        }
    }
}

/// Why the data of a file do not have a layout.
#[derive(Clone, Copy, Debug, PartialEq, Eq, Error)]
pub enum LayoutFault {
    /// The number of a picked field is greater than the number of fields of the header.
    #[error("a picked field is not in the header")]
    Columns,
    /// The first fault in the data.
    #[error(transparent)]
    At(DataFault),
    /// Memory ran out.
    #[error("no memory")]
    NoMemory,
}

impl From<DataFault> for LayoutFault {
    ghost use Rattle.std.specs.Prelude.{◌≡◌};
    ghost use Rattle.record_reader.specs.declared.faults.LayoutFault.TheVariants.{At};

    ghost from_gives = { λ fault result. result ≡ At fault };

    fn from(fault: DataFault) -> LayoutFault {
        LayoutFault::At(fault)
    }
}

impl From<NoMemory> for LayoutFault {
    ghost use Rattle.std.specs.Prelude.{◌≡◌};
    ghost use Rattle.record_reader.specs.declared.faults.LayoutFault.TheVariants as fault;

    ghost from_gives = { λ _ result. result ≡ fault.NoMemory };

    fn from(_error: NoMemory) -> LayoutFault {
        LayoutFault::NoMemory
    }
}
