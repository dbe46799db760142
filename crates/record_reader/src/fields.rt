// Fields in one buffer.
ghost use Rattle.std.specs.Prelude.{◌≡◌, ◌<◌, [], ◌∷◌, ◌++◌, length, slice_index, OnOk, OnErr};
ghost use Rattle.std.specs.List.{slice_index_or};
ghost use Rattle.csv.specs.Records.{fields_of};

use csv::ByteRecord;
use std::alloc::Global;
use std::marker::Model;
use std::ops::Range;
use weights::NoMemory;

// Where one piece of a list that is cut at these ends lies.
pub(crate) fn span(ends: &[usize], piece: usize) -> Range<usize>
    requires { piece < length ends.now }
    ensures start { result.start ≡ slice_index (0 ∷ ends.now) piece }
    ensures end { result.end ≡ slice_index ends.now piece }
{
    let start = if piece == 0 { 0 } else { ends[piece - 1] };
    start..ends[piece]
}

// The fields of a file, one after the other: their bytes in one buffer, and where each field ends.
#[derive(Drop)]
pub(crate) struct Fields {
    bytes: Vec<u8>,
    ends: Vec<usize>,
}

impl Model for Fields {
    ghost use Rattle.std.specs.Prelude.{List, ℕ, length};
    ghost use Rattle.record_reader.specs.Pieces.{Cuts, pieces};

    ghost Value = { List (List ℕ) };

    ghost view = { λ a. pieces 0 a.ends.items a.bytes.items };

    ghost invariant = { λ a. Cuts 0 a.ends.items (length a.bytes.items) };
}

impl Fields {
    pub(crate) fn empty(alloc: Global) -> Fields
        ensures { result ≡ [] }
    {
        Fields {
            bytes: Vec::new(alloc),
            ends: Vec::new(alloc),
        }
    }

    pub(crate) fn len(&self) -> usize
        ensures { result ≡ length self.now }
    {
        self.ends.len()
    }

    pub(crate) fn get(&self, place: usize) -> &[u8]
        requires { place < length self.now }
        ensures { result.now ≡ slice_index_or self.now place [] }
    {
        let span = span(&self.ends, place);
        &self.bytes[span.start..span.end]
    }

    // Adds a field. Fields that are refused the memory stay as they were.
    pub(crate) fn push(&mut self, field: &[u8]) -> Result<(), NoMemory>
        ensures ok { OnOk result (self.new ≡ self.old ++ field.now ∷ []) }
        ensures err { OnErr result (self.new ≡ self.old) }
    {
        self.ends.try_reserve(1)?;
        self.bytes.extend_from_slice(field)?;
        self.ends.push(self.bytes.len()).unwrap();
        Ok(())
    }

    // Adds the fields of a record. Where memory runs out, those that came before stay.
    pub(crate) fn extend(&mut self, row: &ByteRecord) -> Result<(), NoMemory>
        ensures { OnOk result (self.new ≡ self.old ++ fields_of row.now) }
    {
        for field in row {
            self.push(field)?;
        }
        Ok(())
    }
}
