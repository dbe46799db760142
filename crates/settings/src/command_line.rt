// What the words of the command line mean.
ghost use Rattle.std.specs.Prelude.{◌≡◌, true, IfOk, Ok, [], map, string_bytes, unwrap_or};
ghost use Rattle.settings.specs.Faults.{Meets};
ghost use Rattle.weights.specs.Results.{and_then};
ghost use Rattle.settings.specs.Help.{help};
ghost use Rattle.std.specs.List.{list_all, list_any};
ghost use Rattle.settings.specs.Meaning.{command_of, has_needed, has_whole_piece, is_complete, is_given, is_help, made_number, meaning_of, meaning_of_given, settings_of};
ghost use Rattle.settings.specs.Words.{none_given, with_words};
ghost use Rattle.settings.specs.WordSteps.{IsSound, given_in};
ghost use Rattle.settings.specs.Options.{listed_names, settings_without_options, with_options};
ghost use Rattle.settings.specs.Usable.{IsUsable};
ghost use Rattle.settings.specs.ClapLine.{clap_line, value_found};
ghost use Rattle.settings.specs.RunWords.{piece_begun};

use crate::clap_line::{clap_line, matches_in};
use crate::names::{FLAGS, OPTIONS, OptionName, PIECE_OPTIONS, TestName, UsageFault};
use crate::settings::{FileName, Settings, made_number};
use crate::words::{WordsSoFar, words_given};
use clap::ArgMatches;
use std::alloc::Global;
use weights::NoMemory;

/// What the words of the command line ask for.
#[derive(Drop)]
pub enum CommandLine {
    /// The help text.
    Help,
    /// A test of the data of a file.
    Test(Settings),
    /// The rank sum test of made data, by their number, which is at most 2,147,483,647.
    Drill(u64),
    /// The estimate of a shift between two samples of the data of a file, with its limits.
    Shift(Settings),
    /// The report of a divided run, by the pieces that a file holds.
    Merge(FileName),
}

/// The help text, which names the tests and the options that can be given.
pub fn help_text() -> &'static str
    ensures { result.now ≡ help }
{
    concat!(
        "usage: exact TEST FILE [options]\n",
        "       exact drill --number K\n",
        "       exact shift FILE [--miss P/Q]\n",
        "       exact merge FILE\n",
        "tests: signedrank sign rawsigned mcnemar\n",
        "       ranksum ansari mood savage median raw\n",
        "       kw jt umbrella friedman page cochran\n",
        "       fisher linear strata\n",
        "       zelen stratranksum kendall runs\n",
        "options: --tail all|less|greater|two\n",
        "         --scores KIND --order LABELS --peak P\n",
        "         --row-scores LIST --column-scores LIST\n",
        "         --columns LIST --separator comma|semicolon|tab\n",
        "         --distribution --plain --nodes\n",
        "         --odds P/Q --missing refuse|drop\n",
        "         --stage G --parts P --part I\n",
    )
}

/// Reads the words after the program's name: TEST, FILE, options and flags in any order, or
/// `--help` alone, for which it takes no memory.
///
/// The value of an option is the next word, or follows an equals sign. A value that begins with `-`
/// needs the sign, unless it is `-` alone. A flag has no value. After the word `--` all words are
/// positional. No option is abbreviated or given twice, and there are two positional words at most.
///
/// # Errors
/// The first of these faults. `Form` where the words do not have this form, or TEST is missing;
/// `Value(OptionName::Test)` where TEST names none of the tests; `Form` where FILE is missing, or
/// is there with `drill`, where an option is missing that the test cannot do without, where both
/// `--plain` and `--nodes` are there, and where one or two of `--stage`, `--parts` and `--part` are
/// there, or a flag beside them; and then for each option, in the order of the help text, `Pairing`
/// where the test does not take it, `Value` where its value is not of its form, and for `--tail`
/// `Pairing` where the test never has the tail; and last `Pairing` of `--tail` where it is `two`
/// and `--odds` is there. Or else `NoMemory` where memory runs out.
pub fn read(alloc: Global, words: &[String]) -> Result<CommandLine, UsageFault>
    ensures meaning { Meets (meaning_of (map string_bytes words.now)) result }
    ensures help { is_help (map string_bytes words.now) ≡ true → result ≡ Ok CommandLine.Help }
    ensures usable { IfOk result IsUsable }
{
    if is_help(words) {
        return Ok(CommandLine::Help);
    }
    read_given(alloc, words)
}

// Reads words that are not `--help` alone.
fn read_given(alloc: Global, words: &[String]) -> Result<CommandLine, UsageFault>
    ensures { Meets (and_then meaning_of_given
        (with_words (map string_bytes words.now) none_given)) result }
{
    let given = words_given(alloc, words)?;
    command_given(alloc, &given)
}

// The command that is given.
fn command_given(alloc: Global, given: &WordsSoFar<'_>) -> Result<CommandLine, UsageFault>
    requires { IsSound (given_in given.now) }
    ensures { Meets (meaning_of_given (given_in given.now)) result }
{
    let Some(word) = given.test else {
        return Err(UsageFault::Form);
    };
    let Some(test) = TestName::named(word) else {
        return Err(UsageFault::Value(OptionName::Test));
    };
    if !given.is_complete(test) {
        return Err(UsageFault::Form);
    }
    let settings = settings_of(alloc, given, test, word)?.paired()?;
    Ok(command_of(given, settings))
}

// Whether the words are `--help` alone.
fn is_help(words: &[String]) -> bool
    ensures { result ≡ is_help (map string_bytes words.now) }
{
    match words {
        [word] => word.as_str() == "--help",
        _ => false,
    }
}

impl<'a> WordsSoFar<'a> {
    // The word FILE, which is empty where it is not given.
    fn file_or_empty(&self) -> &'a str
        ensures { result.now ≡ unwrap_or (given_in self.now).file [] }
    {
        match self.file {
            Some(file) => file,
            None => "",
        }
    }

    // The number of made data that is given, or 0.
    fn made_number(&self) -> u64
        ensures { result ≡ made_number (given_in self.now) }
    {
        match self.value_of(OptionName::Number) {
            Some(text) => made_number(text).unwrap_or(0),
            None => 0,
        }
    }

    // Whether the test can be asked for with what is given and what is not.
    fn is_complete(&self, test: TestName) -> bool
        ensures { result ≡ is_complete test (given_in self.now) }
    {
        let file_fits = if test.reads_file() {
            self.file.is_some()
        } else {
            self.file.is_none()
        };
        file_fits
            && self.has_needed(test)
            && !(self.has(OptionName::Plain) && self.has(OptionName::Nodes))
            && self.has_whole_piece()
    }

    // Whether a part is asked for by all of its options and no flag, or none is.
    fn has_whole_piece(&self) -> bool
        ensures { result ≡ has_whole_piece (given_in self.now) }
    {
        if self.has_any(&PIECE_OPTIONS) {
            self.has_all(&PIECE_OPTIONS) && !self.has_any(&FLAGS)
        } else {
            true
        }
    }

    // Whether any of these options is given.
    fn has_any(&self, options: &[OptionName]) -> bool
        ensures { result ≡ list_any (is_given (given_in self.now)) options.now }
    {
        options.iter().any(|option| self.has(*option))
    }

    // Whether all of these options are given.
    fn has_all(&self, options: &[OptionName]) -> bool
        ensures { result ≡ list_all (is_given (given_in self.now)) options.now }
    {
        options.iter().all(|option| self.has(*option))
    }

    // Whether the options are there that the test cannot do without.
    fn has_needed(&self, test: TestName) -> bool
        ensures { result ≡ list_all (has_needed test (given_in self.now)) listed_names }
    {
        OPTIONS
            .iter()
            .all(|option| !test.needs(*option) || self.has(*option))
    }
}

// The settings of a test with the options that are given, read by `clap`.
fn settings_of(
    alloc: Global,
    given: &WordsSoFar<'_>,
    test: TestName,
    word: &str,
) -> Result<Settings, UsageFault>
    requires { IsSound (given_in given.now) }
    ensures { Meets (settings_of (given_in given.now) test) result }
{
    let file = given.file_or_empty();
    let Ok(line) = clap_line(alloc, &given.uses, word, file) else {
        return Err(UsageFault::NoMemory);
    };
    with_line(alloc, given, test, word, &line)
}

// The settings with the options that the line has for `clap`.
fn with_line(
    alloc: Global,
    given: &WordsSoFar<'_>,
    test: TestName,
    word: &str,
    words: &[String],
) -> Result<Settings, UsageFault>
    requires sound { IsSound (given_in given.now) }
    requires line { let given = given_in given.now in
        map string_bytes words.now ≡ clap_line given.uses word.now (unwrap_or given.file []) }
    ensures { Meets (settings_of (given_in given.now) test) result }
{
    let Ok(matches) = matches_in(alloc, words) else {
        return Err(UsageFault::NoMemory);
    };
    let Ok(settings) = begun(alloc, given, test) else {
        return Err(UsageFault::NoMemory);
    };
    with_matches(alloc, &OPTIONS, settings, &matches)
}

// The settings before any option is read.
fn begun(alloc: Global, given: &WordsSoFar<'_>, test: TestName) -> Result<Settings, NoMemory>
    ensures { let words = given_in given.now in IfOk result (λ settings.
        settings ≡ record (settings_without_options test (unwrap_or words.file [])) {
          piece = piece_begun test words.uses;
        }) }
{
    let Ok(name) = FileName::copy_of(alloc, given.file_or_empty()) else {
        return Err(NoMemory);
    };
    match given.piece_begun(alloc, test) {
        Ok(piece) => {
            let mut settings = Settings::without_options(alloc, test, name);
            settings.piece = piece;
            Ok(settings)
        }
        Err(_) => Err(NoMemory),
    }
}

// The settings with those of the options that are found.
fn with_matches(
    alloc: Global,
    options: &[OptionName],
    settings: Settings,
    matches: &ArgMatches<'_>,
) -> Result<Settings, UsageFault>
    ensures { Meets (with_options options.now (value_found matches.now) settings) result }
{
    let mut settings = settings;
    for option in options {
        settings.set_given(alloc, *option, matches.get_str(option.word()))?;
    }
    Ok(settings)
}

// The command that settings stand for.
fn command_of(given: &WordsSoFar<'_>, settings: Settings) -> CommandLine
    ensures { result ≡ command_of (made_number (given_in given.now)) settings }
{
    match settings.test {
        TestName::Drill => CommandLine::Drill(given.made_number()),
        TestName::Shift => CommandLine::Shift(settings),
        TestName::Merge => CommandLine::Merge(settings.file),
        _ => CommandLine::Test(settings),
    }
}
