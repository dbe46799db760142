// What a run is asked for.
ghost use Rattle.std.specs.Prelude.{◌≡◌, IfOk, Some};
ghost use Rattle.std.specs.Option.{ok_or};
ghost use Rattle.settings.specs.Faults.{MeetsAs};
ghost use Rattle.settings.specs.Meaning.{paired_options};
ghost use Rattle.settings.specs.Options.{form_of, raised, settings_without_options, with_option, with_piece};
ghost use Rattle.settings.specs.Values.{column_scores_form, number_form, number_of, peak_form, row_scores_form};
ghost use Rattle.settings.specs.WordSteps.{text_of};
ghost use Rattle.settings.specs.declared.names.OptionName.TheVariants as option;

use crate::lists::{ListForm, columns_in, number_of, numbers_of};
use crate::names::{OptionName, TestName, UsageFault};
use crate::pieces::PieceOf;
use crate::tails::TailChoice;
use crate::values::{miss_of, missing_of, odds_of, order_of, scores_of, separator_of};
use record_reader::{Missing, Picks};
use sample_reader::Labels;
use scores::ScoreKind;
use std::alloc::Global;
use std::marker::Model;
use weights::{List, NoMemory, Odds};

/// A list of signed numbers of 64 bits.
pub type Nums64 = List<i64>;

/// The word FILE.
#[derive(Drop)]
pub struct FileName {
    text: String,
}

impl Model for FileName {
    ghost use Rattle.std.specs.Prelude.{List, ℕ, string_bytes};

    ghost Value = { List ℕ };

    ghost view = { λ a. string_bytes a.text };
}

impl FileName {
    // The name, in memory of its own.
    pub(crate) fn copy_of(alloc: Global, text: &str) -> Result<FileName, NoMemory>
        ensures { IfOk result (λ name. name ≡ text.now) }
    {
        Ok(FileName {
            text: String::from_str(alloc, text)?,
        })
    }

    /// The text of the name. It takes no memory.
    pub fn as_str(&self) -> &str
        ensures { result.now ≡ self.now }
    {
        self.text.as_str()
    }
}

/// What a test is asked for. An option that is not given has its default.
#[derive(Drop)]
pub struct Settings {
    /// The test.
    pub test: TestName,
    /// The file that its data are read from.
    pub file: FileName,
    /// The tails that are asked for; all by default.
    pub tail: TailChoice,
    /// The kind of scores; Wilcoxon's by default.
    pub scores: ScoreKind,
    /// The labels of the groups in their order, 2 to 8; none by default, which leaves them in the
    /// order of the file.
    pub order: Labels,
    /// The number of the group at the peak, from 1; by default 0, for no peak.
    pub peak: u64,
    /// The scores of the rows of a table; none by default, which stands for 1, 2, 3 and so on.
    pub row_scores: Nums64,
    /// The scores of the columns of a table; none by default, which stands for 1, 2, 3 and so on.
    pub column_scores: Nums64,
    /// Which fields of the file are read; as they stand, by default.
    pub picks: Picks,
    /// The byte between two fields: a comma by default, a semicolon or a tab.
    pub separator: u8,
    /// The odds ratio that rearrangements are weighed by; none by default, which weighs all alike.
    pub odds: Option<Odds>,
    /// What becomes of a row with a missing field; by default it is a fault.
    pub missing: Missing,
    /// How often the limits of a shift may miss it; a twentieth by default.
    pub miss: Odds,
    /// Whether the distribution is asked for.
    pub distribution: bool,
    /// Whether all rearrangements are to be listed.
    pub plain: bool,
    /// Whether the numbers of open keys are asked for.
    pub nodes: bool,
    /// Which part of a divided run is asked for; none by default, for the whole run.
    pub piece: Option<PieceOf>,
}

// The number of a group.
const PEAK: ListForm = ListForm {
    low: 1,
    high: 8,
    fewest: 1,
    most: 1,
};

// The scores of the rows of a table.
const ROW_SCORES: ListForm = ListForm {
    low: -1_000_000_000,
    high: 1_000_000_000,
    fewest: 2,
    most: 8,
};

// The scores of its columns.
const COLUMN_SCORES: ListForm = ListForm {
    most: 64,
    ..ROW_SCORES
};

// The greatest number of made data.
const GREATEST_NUMBER: u64 = 2_147_483_647;

// How often the limits of a shift may miss it where that is not given.
const DEFAULT_MISS: Odds = Odds {
    above: 1,
    below: 20,
};

// The number of made data.
const NUMBER: ListForm = ListForm {
    low: 0,
    high: GREATEST_NUMBER as i64,
    fewest: 1,
    most: 1,
};

impl Settings {
    // The settings where no option is given.
    pub(crate) fn without_options(alloc: Global, test: TestName, file: FileName) -> Settings
        ensures { result ≡ settings_without_options test file }
    {
        Settings {
            test,
            file,
            tail: TailChoice::All,
            scores: ScoreKind::Wilcoxon,
            order: Labels::empty(alloc),
            peak: 0,
            row_scores: Nums64::empty(alloc),
            column_scores: Nums64::empty(alloc),
            picks: Picks::Natural,
            separator: b',',
            odds: None,
            missing: Missing::Refuse,
            miss: DEFAULT_MISS,
            distribution: false,
            plain: false,
            nodes: false,
            piece: None,
        }
    }

    // Takes over the value of an option, where it is given.
    pub(crate) fn set_given(
        &mut self,
        alloc: Global,
        name: OptionName,
        value: Option<&str>,
    ) -> Result<(), UsageFault>
        ensures { let more = with_option name (text_of value.entry) self.old in
            MeetsAs (λ unit. self.new) more result }
    {
        match value {
            Some(text) => self.set_option(alloc, name, text),
            None => Ok(()),
        }
    }

    // Takes over the value of an option, where the test takes it and goes with the value.
    fn set_option(&mut self, alloc: Global, name: OptionName, text: &str) -> Result<(), UsageFault>
        ensures { MeetsAs (λ unit. self.new) (with_option name (Some text.now) self.old) result }
    {
        if !self.test.takes(name) {
            return Err(UsageFault::Pairing(name, self.test));
        }
        self.set_text(alloc, name, text)?;
        if self.suits(name) {
            Ok(())
        } else {
            Err(UsageFault::Pairing(name, self.test))
        }
    }

    // Whether the test goes with the value of the option too.
    fn suits(&self, name: OptionName) -> bool
        ensures { result ≡ (form_of name).suits self.now }
    {
        match name {
            OptionName::Tail => self.test.allows_tail(self.tail),
            _ => true,
        }
    }

    // Where its options go together: by odds no two-sided test is made.
    pub(crate) fn paired(self) -> Result<Settings, UsageFault>
        ensures { result ≡ paired_options self }
    {
        if self.odds.is_some() && matches!(self.tail, TailChoice::Two) {
            return Err(UsageFault::Pairing(OptionName::Tail, self.test));
        }
        Ok(self)
    }

    // Takes over the value of this text.
    fn set_text(&mut self, alloc: Global, name: OptionName, text: &str) -> Result<(), UsageFault>
        ensures { let more = (form_of name).set text.now self.old in
            MeetsAs (λ unit. self.new) (ok_or more (UsageFault.Value name)) result }
    {
        match name {
            OptionName::Test => Err(UsageFault::Value(name)),
            OptionName::Tail => put_found(&mut self.tail, name, TailChoice::named(text)),
            OptionName::Scores => put_found(&mut self.scores, name, scores_of(text)),
            OptionName::Order => put(&mut self.order, order_of(alloc, text)),
            OptionName::Peak => put_found(&mut self.peak, name, number_of(PEAK, text)),
            OptionName::RowScores => {
                put(
                    &mut self.row_scores,
                    numbers_of(alloc, name, ROW_SCORES, text),
                )
            }
            OptionName::ColumnScores => {
                put(
                    &mut self.column_scores,
                    numbers_of(alloc, name, COLUMN_SCORES, text),
                )
            }
            OptionName::Columns => self.set_columns(alloc, text),
            OptionName::Separator => put_found(&mut self.separator, name, separator_of(text)),
            OptionName::Number => match made_number(text) {
                Some(_) => Ok(()),
                None => Err(UsageFault::Value(name)),
            },
            OptionName::Odds => self.set_odds(text),
            OptionName::Missing => put_found(&mut self.missing, name, missing_of(text)),
            OptionName::Miss => put_found(&mut self.miss, name, miss_of(text)),
            OptionName::Distribution | OptionName::Plain | OptionName::Nodes => {
                self.raise(name);
                Ok(())
            }
            OptionName::Stage | OptionName::Parts | OptionName::Part => self.set_piece(name, text),
        }
    }

    // Takes over the fields that are read.
    fn set_columns(&mut self, alloc: Global, text: &str) -> Result<(), UsageFault>
        ensures { let more = (form_of option.Columns).set text.now self.old in
            MeetsAs (λ unit. self.new) (ok_or more (UsageFault.Value option.Columns)) result }
    {
        match columns_in(alloc, OptionName::Columns, self.test.fields(), text) {
            Ok(columns) => {
                self.picks = Picks::Listed(columns);
                Ok(())
            }
            Err(fault) => Err(fault),
        }
    }

    // Takes over the odds ratio.
    fn set_odds(&mut self, text: &str) -> Result<(), UsageFault>
        ensures { let more = (form_of option.Odds).set text.now self.old in
            MeetsAs (λ unit. self.new) (ok_or more (UsageFault.Value option.Odds)) result }
    {
        match odds_of(text) {
            Some(odds) => {
                self.odds = Some(odds);
                Ok(())
            }
            None => Err(UsageFault::Value(OptionName::Odds)),
        }
    }

    // Takes over the value of this text for an option of the part that is run.
    fn set_piece(&mut self, name: OptionName, text: &str) -> Result<(), UsageFault>
        ensures { let more = with_piece name text.now self.old in
            MeetsAs (λ unit. self.new) (ok_or more (UsageFault.Value name)) result }
    {
        match &mut self.piece {
            Some(piece) => piece.set_text(name, text),
            None => Err(UsageFault::Value(name)),
        }
    }

    // Raises a flag; an option is none.
    fn raise(&mut self, name: OptionName)
        ensures { self.new ≡ raised name self.old }
    {
        match name {
            OptionName::Distribution => self.distribution = true,
            OptionName::Plain => self.plain = true,
            OptionName::Nodes => self.nodes = true,
            _ => {}
        }
    }
}

// The number of made data that a text writes. No settings hold it.
pub(crate) fn made_number(text: &str) -> Option<u64>
    ensures { result ≡ number_of number_form text.now }
{
    number_of(NUMBER, text)
}

// Puts a value in its place, where there is one.
fn put<T: Drop>(place: &mut T, value: Result<T, UsageFault>) -> Result<(), UsageFault>
    ensures { MeetsAs (λ unit. place.new) value result }
{
    match value {
        Ok(value) => {
            *place = value;
            Ok(())
        }
        Err(fault) => Err(fault),
    }
}

// Puts the value of an option in its place, where its text has one.
pub(crate) fn put_found<T: Drop>(
    place: &mut T,
    name: OptionName,
    value: Option<T>,
) -> Result<(), UsageFault>
    ensures { MeetsAs (λ unit. place.new) (ok_or value (UsageFault.Value name)) result }
{
    match value {
        Some(value) => {
            *place = value;
            Ok(())
        }
        None => Err(UsageFault::Value(name)),
    }
}
