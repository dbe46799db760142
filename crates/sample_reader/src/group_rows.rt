// The groups of a file.
ghost use Rattle.std.specs.Prelude.{◌≡◌, ◌^◌, ◌<◌, ◌≤◌, [], Ok, IfErr, IfOk, length, nat_abs};
ghost use Rattle.record_reader.specs.Answers.{IsFaultOf, IsFieldAnswer};
ghost use Rattle.sample_reader.specs.Data.{data_of, sequence_data_of};
ghost use Rattle.sample_reader.specs.GroupLayout.{grouped, groups_in, no_subjects, with_label, with_number};
ghost use Rattle.record_reader.specs.Layouts.{MayPick};
ghost use Rattle.sample_reader.specs.Kept.{AreWhole, IsWholeSequence};
ghost use Rattle.sample_reader.specs.Sequences.{numbered};

use crate::fields::{is_missing_label, is_missing_value, label_in, value_in};
use crate::label_set::LabelSet;
use crate::samples::{Groups, Sequence, sizes_of};
use record_reader::{
    FieldFault, Kind, Layout, LayoutFault, MOST_ROWS, Missing, Picks, Rows, Shape, read_in,
};
use std::alloc::Global;
use std::marker::Model;
use weights::{Ints, NoMemory, Nums};

// The groups of the subjects so far: the labels in the order in which they first appear, and each
// subject's number of its label, and value.
#[derive(Drop)]
pub(crate) struct GroupsSoFar {
    labels: LabelSet,
    members: Nums,
    values: Ints,
}

impl Model for GroupsSoFar {
    ghost use Rattle.sample_reader.specs.GroupLayout.{Subjects};
    ghost use Rattle.sample_reader.specs.Kept.{AreKept, subjects_of};

    ghost Value = { Subjects };

    ghost view = { λ a. subjects_of a.labels a.members a.values };

    ghost invariant = { λ a. AreKept a.labels a.members a.values };
}

impl GroupsSoFar {
    pub(crate) fn empty(alloc: Global) -> GroupsSoFar
        ensures { result ≡ no_subjects }
    {
        GroupsSoFar {
            labels: LabelSet::empty(alloc),
            members: Nums::empty(alloc),
            values: Ints::empty(alloc),
        }
    }

    // These with one label more, where there are then at most so many different ones.
    pub(crate) fn with_label(self, most: u64, label: &[u8]) -> Result<GroupsSoFar, FieldFault>
        ensures { IsFieldAnswer (with_label most self label.now) result }
    {
        let GroupsSoFar {
            mut labels,
            mut members,
            values,
        } = self;
        let number = labels.insert(label)?;
        if labels.len() as u64 > most {
            return Err(FieldFault::Text(Kind::GroupTooMany));
        }
        members.push(number as u64)?;
        Ok(GroupsSoFar {
            labels,
            members,
            values,
        })
    }

    // These with one value more.
    fn with_number(self, value: i128) -> Result<GroupsSoFar, NoMemory>
        requires { nat_abs value < 10 ^ 36 }
        ensures { IfOk result (λ more. more ≡ with_number self value) }
    {
        let GroupsSoFar {
            labels,
            members,
            mut values,
        } = self;
        values.push(value)?;
        Ok(GroupsSoFar {
            labels,
            members,
            values,
        })
    }

    // The groups of these, where they are all.
    pub(crate) fn into_groups(self, alloc: Global) -> Result<Groups, NoMemory>
        requires { AreWhole self }
        ensures { IfOk result (λ groups. data_of groups ≡ grouped self) }
    {
        let sizes = sizes_of(alloc, self.labels.len(), self.members.as_slice())?;
        Ok(Groups {
            labels: self.labels.into_labels(alloc)?,
            sizes,
            members: self.members,
            values: self.values,
        })
    }

    // The sequence of the labels of these, where they are all.
    pub(crate) fn into_sequence(self, alloc: Global) -> Result<Sequence, NoMemory>
        requires { IsWholeSequence self }
        ensures { IfOk result (λ sequence. sequence_data_of sequence ≡ numbered self) }
    {
        let sizes = sizes_of(alloc, self.labels.len(), self.members.as_slice())?;
        Ok(Sequence {
            labels: self.labels.into_labels(alloc)?,
            sizes,
            members: self.members,
        })
    }
}

// The layout of groups: a label and a value in each row, and at most so many different labels.
#[derive(Clone, Copy)]
pub(crate) struct GroupLayout {
    pub(crate) most: u64,
}

impl Layout<GroupsSoFar> for GroupLayout {
    ghost use Rattle.sample_reader.specs.GroupLayout.{group_layout};

    ghost meaning = { λ layout. group_layout layout.most };

    fn shape(&self) -> Shape {
        Shape {
            narrowest: 2,
            widest: 2,
            too_wide: Kind::FieldCount,
            most_rows: MOST_ROWS,
        }
    }

    fn start(&self, alloc: Global) -> GroupsSoFar {
        GroupsSoFar::empty(alloc)
    }

    fn with_field(
        &self,
        place: usize,
        text: &[u8],
        so_far: GroupsSoFar,
    ) -> Result<GroupsSoFar, FieldFault> {
        if place == 0 {
            so_far.with_label(self.most, label_in(text)?)
        } else {
            Ok(so_far.with_number(value_in(text)?)?)
        }
    }

    fn is_missing(&self, place: usize, text: &[u8]) -> bool {
        if place == 0 {
            is_missing_label(text)
        } else {
            is_missing_value(text)
        }
    }

    fn is_enough(&self, so_far: &GroupsSoFar) -> bool {
        so_far.labels.len() >= 2
    }
}

/// The groups of a file, in time linear in it: each row of data has a label and a value.
///
/// A label is the text of its field without the spaces and tabs around it, and labels are the same
/// where their bytes are. A value is a number text, with spaces and tabs around it ignored. There
/// are at least two different labels and at most `most`, and at most [`MOST_ROWS`] rows below the
/// header, whose texts are not used. Rows and fields have numbers from 1, so the header is row 1.
///
/// Where rows with a missing field are dropped, a row below the header that is not one too many, is
/// as wide as the header, and whose label is empty or whose value is empty or `NA`, gives no
/// subject and no label, and none of its faults counts.
///
/// # Errors
/// `Columns` where there is a header and a listed field is not in it. Else `At` with the first
/// fault of the file: `NoHeader` where it has no row, `FieldCount` where its header has not two
/// fields and none are listed, and then, row by row, `TooManyRows`, `FieldCount` where the row is
/// not as wide as the header, and the faults of its picked fields in the order picked: `Missing`,
/// `GroupTooMany`, `NotNumber`, `OutOfRange`. `EndsEarly` at the last row, where fewer than two
/// labels occur. Or else `NoMemory` where memory runs out.
pub fn groups(
    alloc: Global,
    rows: &Rows,
    picks: &Picks,
    most: u64,
    missing: Missing,
) -> Result<Groups, LayoutFault>
    requires picks { MayPick 2 2 picks.now }
    requires two { 2 ≤ most }
    requires eight { most ≤ 8 }
    ensures ok { IfOk result (λ groups.
        groups_in most missing picks.now rows.now ≡ Ok (data_of groups)) }
    ensures most { IfOk result (λ groups. length groups.labels ≤ most) }
    ensures fault { IfErr result (IsFaultOf (groups_in most missing picks.now rows.now)) }
{
    let subjects = read_in(alloc, &GroupLayout { most }, missing, rows, picks)?;
    Ok(subjects.into_groups(alloc)?)
}
