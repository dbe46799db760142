// The groups of a file in their strata.
ghost use Rattle.std.specs.Prelude.{◌≡◌, Ok, IfErr, IfOk};
ghost use Rattle.record_reader.specs.Answers.{IsFaultOf, IsFieldAnswer};
ghost use Rattle.record_reader.specs.Layouts.{MayPick};
ghost use Rattle.weights.specs.Results.{with_value};
ghost use Rattle.sample_reader.specs.Data.{strata_data_of};
ghost use Rattle.sample_reader.specs.GroupLayout.{with_subject_field};
ghost use Rattle.sample_reader.specs.Kept.{AreWholeInStrata};
ghost use Rattle.sample_reader.specs.StrataGroups.{no_strata, strata_groups_in, stratified, with_stratum, with_subjects};

use crate::fields::{is_missing_label, label_in};
use crate::group_rows::{GroupLayout, GroupsSoFar};
use crate::label_set::LabelSet;
use crate::samples::StrataGroups;
use record_reader::{
    FieldFault, Kind, Layout, LayoutFault, MOST_ROWS, Missing, Picks, Rows, Shape, read_in,
};
use std::alloc::Global;
use std::marker::Model;
use weights::{NoMemory, Nums};

// The strata of the subjects so far: the labels in the order in which they first appear, and each
// subject's number of its label; and the groups of the subjects.
#[derive(Drop)]
pub(crate) struct StrataSoFar {
    strata: LabelSet,
    places: Nums,
    subjects: GroupsSoFar,
}

impl Model for StrataSoFar {
    ghost use Rattle.std.specs.Prelude.{bytes_eq};
    ghost use Rattle.sample_reader.specs.Kept.{labels_at};
    ghost use Rattle.sample_reader.specs.Numbered.{IsNumbered};
    ghost use Rattle.sample_reader.specs.StrataGroups.{StrataSubjects};

    ghost Value = { StrataSubjects };

    ghost view = { λ a. record { strata = labels_at a.strata a.places; subjects = a.subjects } };

    ghost invariant = { λ a. IsNumbered bytes_eq (labels_at a.strata a.places) a.strata a.places };
}

// Two groups, whose labels and values stand behind the strata's labels.
const TWO_GROUPS: GroupLayout = GroupLayout { most: 2 };

impl StrataSoFar {
    fn empty(alloc: Global) -> StrataSoFar
        ensures { result ≡ no_strata }
    {
        StrataSoFar {
            strata: LabelSet::empty(alloc),
            places: Nums::empty(alloc),
            subjects: GroupsSoFar::empty(alloc),
        }
    }

    // These with one stratum's label more.
    fn with_stratum(self, stratum: &[u8]) -> Result<StrataSoFar, NoMemory>
        ensures { IfOk result (λ more. more ≡ with_stratum self stratum.now) }
    {
        let StrataSoFar {
            mut strata,
            mut places,
            subjects,
        } = self;
        let place = strata.insert(stratum)?;
        places.push(place as u64)?;
        Ok(StrataSoFar {
            strata,
            places,
            subjects,
        })
    }

    // These with one field more of a subject of a group, by its place behind the stratum's label.
    fn with_subject_field(self, place: usize, text: &[u8]) -> Result<StrataSoFar, FieldFault>
        ensures { IsFieldAnswer (with_value (with_subjects self)
            (with_subject_field 2 place text.now self.subjects)) result }
    {
        let StrataSoFar {
            strata,
            places,
            subjects,
        } = self;
        let subjects = TWO_GROUPS.with_field(place, text, subjects)?;
        Ok(StrataSoFar {
            strata,
            places,
            subjects,
        })
    }

    // The groups of these in their strata, where they are all.
    fn into_strata_groups(self, alloc: Global) -> Result<StrataGroups, NoMemory>
        requires { AreWholeInStrata self }
        ensures { IfOk result (λ samples. strata_data_of samples ≡ stratified self) }
    {
        let groups = self.subjects.into_groups(alloc)?;
        Ok(StrataGroups {
            strata: self.strata.into_labels(alloc)?,
            labels: groups.labels,
            sizes: groups.sizes,
            places: self.places,
            members: groups.members,
            values: groups.values,
        })
    }
}

// The layout of groups in strata: a stratum's label, a group's label and a value in each row, and
// two different labels of groups.
#[derive(Clone, Copy)]
pub(crate) struct StrataLayout;

impl Layout<StrataSoFar> for StrataLayout {
    ghost use Rattle.sample_reader.specs.StrataGroups.{strata_groups_layout};

    ghost meaning = { λ _. strata_groups_layout };

    fn shape(&self) -> Shape {
        Shape {
            narrowest: 3,
            widest: 3,
            too_wide: Kind::FieldCount,
            most_rows: MOST_ROWS,
        }
    }

    fn start(&self, alloc: Global) -> StrataSoFar {
        StrataSoFar::empty(alloc)
    }

    fn with_field(
        &self,
        place: usize,
        text: &[u8],
        so_far: StrataSoFar,
    ) -> Result<StrataSoFar, FieldFault> {
        if place == 0 {
            Ok(so_far.with_stratum(label_in(text)?)?)
        } else {
            so_far.with_subject_field(place - 1, text)
        }
    }

    fn is_missing(&self, place: usize, text: &[u8]) -> bool {
        if place == 0 {
            is_missing_label(text)
        } else {
            TWO_GROUPS.is_missing(place - 1, text)
        }
    }

    fn is_enough(&self, so_far: &StrataSoFar) -> bool {
        TWO_GROUPS.is_enough(&so_far.subjects)
    }
}

/// The groups of a file in their strata, in time linear in it: each row of data has the label of a
/// stratum, the label of a group and a value.
///
/// A label is the text of its field without the spaces and tabs around it, and labels are the same
/// where their bytes are. A value is a number text, with spaces and tabs around it ignored. There
/// are two different labels of groups, any number of strata, and at most [`MOST_ROWS`] rows below
/// the header, whose texts are not used. Rows and fields have numbers from 1, so the header is row
/// 1.
///
/// Where rows with a missing field are dropped, a row below the header that is not one too many, is
/// as wide as the header, and of which a label is empty or the value is empty or `NA`, gives no
/// subject and no label, and none of its faults counts.
///
/// # Errors
/// `Columns` where there is a header and a listed field is not in it. Else `At` with the first
/// fault of the file: `NoHeader` where it has no row, `FieldCount` where its header has not three
/// fields and none are listed, and then, row by row, `TooManyRows`, `FieldCount` where the row is
/// not as wide as the header, and the faults of its picked fields in the order picked: `Missing`,
/// `GroupTooMany` where the label of its group is a third one, `NotNumber`, `OutOfRange`.
/// `EndsEarly` at the last row, where fewer than two labels of groups occur. Or else `NoMemory`
/// where memory runs out.
pub fn strata_groups(
    alloc: Global,
    rows: &Rows,
    picks: &Picks,
    missing: Missing,
) -> Result<StrataGroups, LayoutFault>
    requires { MayPick 3 3 picks.now }
    ensures ok { IfOk result (λ samples.
        strata_groups_in missing picks.now rows.now ≡ Ok (strata_data_of samples)) }
    ensures fault { IfErr result (IsFaultOf (strata_groups_in missing picks.now rows.now)) }
{
    let subjects = read_in(alloc, &StrataLayout, missing, rows, picks)?;
    Ok(subjects.into_strata_groups(alloc)?)
}
