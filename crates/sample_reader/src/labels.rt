// The names of groups.
ghost use Rattle.std.specs.Prelude.{◌≡◌, ◌<◌, [], ◌∷◌, ◌++◌, bytes_eq, length, map, IfOk, OnOk, OnErr};
ghost use Rattle.std.specs.List.{slice_index_or};
ghost use Rattle.sample_reader.specs.Groups.{number_among};

use std::alloc::Global;
use std::marker::Model;
use weights::NoMemory;

/// A list of labels. A label is a list of bytes.
#[derive(Drop)]
pub struct Labels {
    labels: Vec<Vec<u8>>,
}

impl Model for Labels {
    ghost use Rattle.std.specs.Prelude.{List, ℕ, map};

    ghost Value = { List (List ℕ) };

    ghost view = { λ a. map (λ label. label.items) a.labels.items };
}

impl Labels {
    /// The list of no label. It takes no memory.
    pub fn empty(alloc: Global) -> Labels
        ensures { result ≡ [] }
    {
        Labels {
            labels: Vec::new(alloc),
        }
    }

    // These labels, each with its bytes.
    pub(crate) fn from_vec(labels: Vec<Vec<u8>>) -> Labels
        ensures { result ≡ map (λ label. label.items) labels.items }
    {
        Labels { labels }
    }

    /// Adds a label at the end. A list that is refused the memory stays as it was.
    pub fn push(&mut self, label: &[u8]) -> Result<(), NoMemory>
        ensures ok { OnOk result (self.new ≡ self.old ++ label.now ∷ []) }
        ensures err { OnErr result (self.new ≡ self.old) }
    {
        let alloc = *self.labels.allocator();
        let copy = Vec::from_slice(alloc, label)?;
        self.labels.push(copy)?;
        Ok(())
    }

    /// How many labels there are.
    pub fn len(&self) -> usize
        ensures { result ≡ length self.now }
    {
        self.labels.len()
    }

    /// The bytes of a label by its number, from 0.
    pub fn label(&self, number: usize) -> &[u8]
        requires { number < length self.now }
        ensures { result.now ≡ slice_index_or self.now number [] }
    {
        self.labels[number].as_slice()
    }

    /// The labels in their order, each with its bytes.
    pub fn as_slice(&self) -> &[Vec<u8>]
        ensures { map (λ label. label.items) result.now ≡ self.now }
    {
        self.labels.as_slice()
    }

    // How many labels stand before the first that is this one.
    pub(crate) fn number_of(&self, label: &[u8]) -> usize
        ensures { result ≡ number_among bytes_eq self.now label.now }
    {
        self.labels
            .iter()
            .position(|known| known.as_slice() == label)
            .unwrap_or(self.labels.len())
    }

    /// The same labels in memory of their own.
    pub fn copy(&self) -> Result<Labels, NoMemory>
        ensures { IfOk result (λ copy. copy ≡ self.now) }
    {
        let mut copy = Labels::empty(*self.labels.allocator());
        for label in 0..self.len() {
            copy.push(self.label(label))?;
        }
        Ok(copy)
    }
}
