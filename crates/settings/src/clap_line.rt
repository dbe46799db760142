// Words that are taken, as `clap` reads them.
ghost use Rattle.std.specs.Prelude.{◌≡◌, ◌∷◌, ◌++◌, [], true, false, IfOk, OnOk, map, string_bytes};
ghost use Rattle.clap.specs.Words.{app_of, found_of, kind_of, matches_of, new_rule, rows_of, rule_of, takes};
ghost use Rattle.settings.specs.ClapLine.{clap_line, exact_app, option_rule, spelled};
ghost use Rattle.settings.specs.WordSteps.{pair_of};

use crate::names::OPTIONS;
use crate::words::Use;
use clap::error::ErrorKind;
use clap::{Arg, ArgMatches, Command};
use std::alloc::Global;
use weights::NoMemory;

// The words of a command line in one spelling: `exact`, each option with its value in one word, and
// behind `--` the two positional words.
pub(crate) fn clap_line(
    alloc: Global,
    uses: &[Use<'_>],
    test: &str,
    file: &str,
) -> Result<Vec<String>, NoMemory>
    ensures { IfOk result (λ words.
        map string_bytes words.items ≡ clap_line (map pair_of uses.now) test.now file.now) }
{
    let mut words = Vec::new(alloc);
    push_text(alloc, &mut words, "exact")?;
    for given in uses {
        push(&mut words, spelled(alloc, given)?)?;
    }
    push_text(alloc, &mut words, "--")?;
    push_text(alloc, &mut words, test)?;
    push_text(alloc, &mut words, file)?;
    Ok(words)
}

// Adds the word of a text.
fn push_text(alloc: Global, words: &mut Vec<String>, text: &str) -> Result<(), NoMemory>
    ensures { OnOk result (map string_bytes words.new.items
        ≡ map string_bytes words.old.items ++ text.now ∷ []) }
{
    match String::from_str(alloc, text) {
        Ok(word) => push(words, word),
        Err(_) => Err(NoMemory),
    }
}

// Adds a word.
fn push(words: &mut Vec<String>, word: String) -> Result<(), NoMemory>
    ensures { OnOk result (words.new.items ≡ words.old.items ++ word ∷ []) }
{
    match words.push(word) {
        Ok(()) => Ok(()),
        Err(_) => Err(NoMemory),
    }
}

// The word of an option with its value.
fn spelled(alloc: Global, given: &Use<'_>) -> Result<String, NoMemory>
    ensures { IfOk result (λ word. string_bytes word ≡ spelled (pair_of given.now)) }
{
    Ok(format!(in alloc; "--{}={}", given.option.word(), given.text)?)
}

// What `clap` finds in words that the command takes.
pub(crate) fn matches_in(alloc: Global, words: &[String]) -> Result<ArgMatches<'_>, NoMemory>
    requires { takes exact_app (map string_bytes words.now) ≡ true }
    ensures { IfOk result (λ matches.
        rows_of (found_of matches) ≡ matches_of exact_app (map string_bytes words.entry.now)) }
{
    let command = command(alloc)?;
    match command.try_get_matches_from(words) {
        Ok(matches) => Ok(matches),
        Err(error) => Err(no_memory(error)),
    }
}

// The error of a parse of words that the command takes.
fn no_memory(error: clap::Error) -> NoMemory
    requires { kind_of error ≡ ErrorKind.OutOfMemory }
{
    prove!(error.kind() == ErrorKind::OutOfMemory);
    NoMemory
}

// The command, where a second use of an option replaces the first.
fn command<'a>(alloc: Global) -> Result<Command<'a>, NoMemory>
    ensures { IfOk result (λ command. app_of command ≡ exact_app) }
{
    let mut command = Command::new(alloc, "exact").args_override_self(true);
    for option in OPTIONS {
        match command.arg(option_argument(alloc, option.name())) {
            Ok(more) => command = more,
            Err(_) => return Err(NoMemory),
        }
    }
    let Ok(command) = command.arg(positional_argument(alloc, "TEST")) else {
        return Err(NoMemory);
    };
    match command.arg(positional_argument(alloc, "FILE")) {
        Ok(command) => Ok(command),
        Err(_) => Err(NoMemory),
    }
}

// An option with one value.
fn option_argument<'a>(alloc: Global, name: &'a str) -> Arg<'a>
    ensures rule { rule_of result ≡ option_rule name.entry.now }
    ensures local { result.global ≡ false }
{
    Arg::new(alloc, name).long(name)
}

// A positional word.
fn positional_argument<'a>(alloc: Global, name: &'a str) -> Arg<'a>
    ensures rule { rule_of result ≡ new_rule name.entry.now }
    ensures local { result.global ≡ false }
{
    Arg::new(alloc, name)
}
