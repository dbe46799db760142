// Which part of a divided run is asked for, and the words of the run.
ghost use Rattle.std.specs.Prelude.{◌≡◌, ◌++◌, IfOk, OnOk};
ghost use Rattle.std.specs.List.{flat_map};
ghost use Rattle.std.specs.Option.{ok_or};
ghost use Rattle.settings.specs.Faults.{MeetsAs};
ghost use Rattle.settings.specs.Pieces.{part_form, parts_form, piece_with, stage_form, within_parts};
ghost use Rattle.settings.specs.RunWords.{piece_begun, run_words, told_word, told_value};
ghost use Rattle.settings.specs.WordSteps.{given_in, text_of};
ghost use Rattle.settings.specs.declared.names.OptionName.TheVariants as option;
ghost use Rattle.settings.specs.declared.names.UsageFault.TheVariants as fault;

use crate::lists::{ListForm, number_of};
use crate::names::{OPTIONS, OptionName, TestName, UsageFault};
use crate::settings::put_found;
use crate::words::WordsSoFar;
use std::alloc::Global;
use weights::{Bytes, NoMemory};

/// The part of a divided run that is to be run.
#[derive(Drop)]
pub struct PieceOf {
    /// The stage at which the run is divided, at most 100,000; a stage past the last stands for
    /// the last.
    pub at: u64,
    /// Into how many parts it is divided, from 1 to 64.
    pub parts: u64,
    /// Which of them is run, from 0.
    pub part: u64,
    /// The words of the run: the word of the test and the options that are given, but for the
    /// part, each followed by a byte 0. An option is written as `--NAME=VALUE`, with the value as
    /// it is given, and all stand in the order of the help text.
    pub given: Bytes,
}

// The stage at which a run is divided.
const STAGE: ListForm = ListForm {
    low: 0,
    high: 100_000,
    fewest: 1,
    most: 1,
};

// How many parts it is divided into.
const PARTS: ListForm = ListForm {
    low: 1,
    high: 64,
    fewest: 1,
    most: 1,
};

// Which part is run.
const PART: ListForm = ListForm {
    low: 0,
    high: 63,
    fewest: 1,
    most: 1,
};

impl PieceOf {
    // Takes over the value of this text for one of its options.
    pub(crate) fn set_text(&mut self, name: OptionName, text: &str) -> Result<(), UsageFault>
        ensures { let more = piece_with name text.now self.old in
            MeetsAs (λ unit. self.new) (ok_or more (fault.Value name)) result }
    {
        match name {
            OptionName::Stage => put_found(&mut self.at, name, number_of(STAGE, text)),
            OptionName::Parts => {
                self.part = 0;
                put_found(&mut self.parts, name, number_of(PARTS, text))
            }
            OptionName::Part => match number_of(PART, text) {
                Some(part) => self.set_part(part),
                None => Err(UsageFault::Value(name)),
            },
            _ => Err(UsageFault::Value(name)),
        }
    }

    // Takes over which part is run, where there are so many.
    fn set_part(&mut self, part: u64) -> Result<(), UsageFault>
        ensures { let more = within_parts self.old part in
            MeetsAs (λ unit. self.new) (ok_or more (fault.Value option.Part)) result }
    {
        if part >= self.parts {
            return Err(UsageFault::Value(OptionName::Part));
        }
        self.part = part;
        Ok(())
    }
}

impl WordsSoFar<'_> {
    // The first part of one, where a part is asked for.
    pub(crate) fn piece_begun(
        &self,
        alloc: Global,
        test: TestName,
    ) -> Result<Option<PieceOf>, NoMemory>
        ensures { IfOk result (λ piece. piece ≡ piece_begun test (given_in self.now).uses) }
    {
        if !self.has(OptionName::Part) {
            return Ok(None);
        }
        Ok(Some(PieceOf {
            at: 0,
            parts: 1,
            part: 0,
            given: self.run_words(alloc, test)?,
        }))
    }

    // The words of the run.
    fn run_words(&self, alloc: Global, test: TestName) -> Result<Bytes, NoMemory>
        ensures { IfOk result (λ words. words ≡ run_words test (given_in self.now).uses) }
    {
        let mut words = Bytes::empty(alloc);
        words.append(test.word().as_bytes())?;
        words.push(0)?;
        self.push_all(&mut words, &OPTIONS)?;
        Ok(words)
    }

    // Adds each of these options with its value, where it is told.
    fn push_all(&self, words: &mut Bytes, options: &[OptionName]) -> Result<(), NoMemory>
        ensures { let uses = (given_in self.now).uses in OnOk result
            (words.new ≡ words.old ++ flat_map (told_word uses) options.now) }
    {
        for option in options {
            self.push_told(words, *option)?;
        }
        Ok(())
    }

    // Adds an option with its value, where it is told.
    fn push_told(&self, words: &mut Bytes, option: OptionName) -> Result<(), NoMemory>
        ensures { OnOk result
            (words.new ≡ words.old ++ told_word (given_in self.now).uses option) }
    {
        match option {
            OptionName::Part => Ok(()),
            _ => push_value(words, option, self.value_of(option)),
        }
    }
}

// Adds an option with its value, where it is given.
fn push_value(words: &mut Bytes, option: OptionName, value: Option<&str>) -> Result<(), NoMemory>
    ensures { OnOk result (words.new ≡ words.old ++ told_value option (text_of value.entry)) }
{
    let Some(text) = value else {
        return Ok(());
    };
    words.append(b"--")?;
    words.append(option.word().as_bytes())?;
    words.append(b"=")?;
    words.append(text.as_bytes())?;
    words.push(0)
}
