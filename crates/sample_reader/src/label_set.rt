// Different labels, each with its number.
ghost use Rattle.std.specs.Prelude.{◌≡◌, [], bytes_eq, length, IfOk, OnOk};
ghost use Rattle.sample_reader.specs.Groups.{number_among, with_item};

use crate::labels::Labels;
use indexmap::IndexSet;
use std::alloc::Global;
use std::marker::Model;
use weights::NoMemory;

// Different labels in the order in which they were first inserted. A label is found by its hash, so
// that many labels are numbered in time linear in them.
#[derive(Drop)]
pub(crate) struct LabelSet {
    labels: IndexSet<Vec<u8>>,
}

impl Model for LabelSet {
    ghost use Rattle.std.specs.Prelude.{List, ℕ, map};

    ghost Value = { List (List ℕ) };

    ghost view = { λ a. map (λ label. label.items) a.labels.keys };
}

impl LabelSet {
    // No label. It takes no memory.
    pub(crate) fn empty(alloc: Global) -> LabelSet
        ensures { result ≡ [] }
    {
        LabelSet {
            labels: IndexSet::new(alloc),
        }
    }

    // How many labels there are.
    pub(crate) fn len(&self) -> usize
        ensures { result ≡ length self.now }
    {
        self.labels.len()
    }

    // The number of this label, which is added at the end where it is not there.
    pub(crate) fn insert(&mut self, label: &[u8]) -> Result<usize, NoMemory>
        ensures number { IfOk result (λ number. number ≡ number_among bytes_eq self.old label.now) }
        ensures ok { OnOk result (self.new ≡ with_item bytes_eq self.old label.now) }
    {
        let copy = Vec::from_slice(*self.labels.allocator(), label)?;
        let (number, _) = self.labels.insert_full(copy)?;
        Ok(number)
    }

    // The labels in their order.
    pub(crate) fn into_labels(self, alloc: Global) -> Result<Labels, NoMemory>
        ensures { IfOk result (λ labels. labels ≡ self) }
    {
        Ok(Labels::from_vec(self.labels.into_iter().collect(alloc)?))
    }
}
