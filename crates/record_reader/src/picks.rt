// Which fields of a row are read.
ghost use Rattle.std.specs.Prelude.{◌≡◌, ◌<◌, length};
ghost use Rattle.std.specs.List.{slice_index_or};
ghost use Rattle.record_reader.specs.Layouts.{fields_of};

use weights::Nums;

/// Which fields of each row are read.
#[derive(Drop)]
pub enum Picks {
    /// The fields as they stand: 1, 2, 3 and so on, as many as the header has.
    Natural,
    /// The fields of these numbers, from 1, in this order.
    Listed(Nums),
}

impl Picks {
    // How many fields are picked of a row that is this wide.
    pub(crate) fn count(&self, width: usize) -> usize
        ensures { result ≡ length (fields_of self.now width) }
    {
        match self {
            Picks::Natural => width,
            Picks::Listed(fields) => fields.len(),
        }
    }

    // The number, from 1, of the picked field of this place in a row that is this wide.
    pub(crate) fn field(&self, width: usize, place: usize) -> u64
        requires { place < length (fields_of self.now width) }
        ensures { result ≡ slice_index_or (fields_of self.now width) place 0 }
    {
        match self {
            Picks::Natural => place as u64 + 1,
            Picks::Listed(fields) => fields.as_slice()[place],
        }
    }
}
