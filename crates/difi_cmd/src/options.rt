ghost use Rattle.std.specs.Prelude.{◌≡◌, ◌≢◌, ◌↔◌, ℕ, List, Option, true, false};
ghost use Rattle.std.specs.Prelude.{IfOk, IfSome, IfNone, IsTrue, drop, map, option_map, string_bytes};
ghost use Rattle.std.specs.Char.{is_ascii_digit};
ghost use Rattle.std.specs.List.{list_all, list_any};
ghost use Rattle.std.specs.Str.Parse.{digits_value};
ghost use Rattle.clap.specs.Words.{app_of, first_value, found_of, rule_of};
ghost use Rattle.difi_cmd.specs.LineOfWords.{AreGiven, AreWithin, GiveNumbers, Gives, IsLeftOut};
ghost use Rattle.difi_cmd.specs.LineOfWords.{GiveValues, IsValue, Text, are_rows, names_of};
ghost use Rattle.difi_cmd.specs.LineOfWords.{option_row, option_rows, value_list};
ghost use Rattle.difi_cmd.specs.LineOfWords.{has_stray as has_stray_word};
ghost use Rattle.difi_cmd.specs.LineOfWords.{is_stray as is_stray_word};
ghost use Rattle.difi_cmd.specs.CommandOfOptions.{app, option_rule};

use clap::error::ErrorKind;
use clap::{Arg, ArgAction, ArgMatches, Command};
use std::alloc::{AllocError, Global};
use thiserror::Error;

/// Why words gave no line.
#[derive(Clone, Copy, Debug, PartialEq, Eq, Error)]
pub(crate) enum WordsFault {
    /// They are no line of the program.
    #[error("the words are no line of the program")]
    Usage,
    /// Memory ran out while they were read.
    #[error("out of memory")]
    Memory,
}

/// An option of a command, as `--name N` or `--name=N`; or, where its name is empty, a word that
/// stands alone. It stands at most once.
#[derive(Clone, Copy, Debug, PartialEq, Eq)]
pub(crate) struct OptionRow {
    /// Its name, without hyphens.
    pub(crate) name: &'static str,
    /// The least number that its value may write.
    pub(crate) least: u64,
    /// The greatest.
    pub(crate) greatest: u64,
    /// What holds where it is left out.
    pub(crate) left_out: LeftOut,
}

/// What holds where an option is left out.
#[derive(Clone, Copy, Debug, PartialEq, Eq)]
pub(crate) enum LeftOut {
    /// It has this number.
    Default(u64),
    /// The words are refused.
    Refused,
    /// It has no number.
    NoNumber,
}

const MOST_DIGITS: usize = 19;

/// The numbers that the words behind the first give these options, in the order of the options.
pub(crate) fn numbers_given(
    alloc: Global,
    rows: &[OptionRow],
    words: &[String],
) -> Result<Vec<Option<u64>>, WordsFault>
    requires { are_rows (option_rows rows.now) ≡ true }
    ensures given { IfOk result (λ numbers.
        GiveNumbers (option_rows rows.now) (drop 1 (map string_bytes words.now)) numbers.items) }
    ensures within { IfOk result (λ numbers. AreWithin (option_rows rows.now) numbers.items) }
    ensures usage { result ≡ Err WordsFault.Usage → (numbers : List (Option ℕ)) →
        ¬ GiveNumbers (option_rows rows.now) (drop 1 (map string_bytes words.now)) numbers }
{
    if has_stray(words) {
        return Err(WordsFault::Usage);
    }
    match matches_of(alloc, rows, words) {
        Ok(matches) => numbers_in(alloc, rows, &matches),
        Err(fault) => Err(fault),
    }
}

// What `clap` makes of the words behind the first.
fn matches_of<'a>(
    alloc: Global,
    rows: &[OptionRow],
    words: &'a [String],
) -> Result<ArgMatches<'a>, WordsFault>
    requires rows { are_rows (option_rows rows.now) ≡ true }
    requires plain { has_stray_word words.now ≡ false }
    ensures given { IfOk result (λ matches.
        GiveValues (names_of (option_rows rows.now)) (drop 1 (map string_bytes words.now))
        (first_value (found_of matches))) }
    ensures usage { result ≡ Err WordsFault.Usage → (value : Text → Option Text) →
        ¬ GiveValues (names_of (option_rows rows.now)) (drop 1 (map string_bytes words.now)) value }
{
    let Ok(command) = command_with(alloc, rows) else {
        return Err(WordsFault::Memory);
    };
    match command.try_get_matches_from(words) {
        Ok(matches) => Ok(matches),
        Err(error) => match error.kind() {
            ErrorKind::OutOfMemory => Err(WordsFault::Memory),
            _ => Err(WordsFault::Usage),
        },
    }
}

// A command of `clap` with these options.
fn command_with<'a>(alloc: Global, rows: &[OptionRow]) -> Result<Command<'a>, AllocError>
    ensures { IfOk result (λ command. app_of command ≡ app (names_of (option_rows rows.now))) }
{
    let mut command = Command::new(alloc, "difi").disable_help_flag(true);
    for row in rows {
        command = command.arg(row.arg(alloc))?;
    }
    Ok(command)
}

// The numbers of these options, by the values that `clap` found.
fn numbers_in(
    alloc: Global,
    rows: &[OptionRow],
    matches: &ArgMatches<'_>,
) -> Result<Vec<Option<u64>>, WordsFault>
    ensures given { IfOk result (λ numbers. AreGiven (option_rows rows.now)
        (λ name. value_list (first_value (found_of matches.now) name)) numbers.items) }
    ensures usage { result ≡ Err WordsFault.Usage → (numbers : List (Option ℕ)) →
        ¬ AreGiven (option_rows rows.now)
        (λ name. value_list (first_value (found_of matches.now) name)) numbers }
{
    let mut numbers = Vec::new(alloc);
    for row in rows {
        let number = match row.number(matches.get_str(row.name)) {
            Ok(number) => number,
            Err(fault) => return Err(fault),
        };
        let Ok(()) = numbers.push(number) else {
            return Err(WordsFault::Memory);
        };
    }
    Ok(numbers)
}

impl OptionRow {
    // The option as `clap` takes it.
    fn arg<'a>(&self, alloc: Global) -> Arg<'a>
        ensures rule { rule_of result ≡ option_rule (option_row self.now).name }
        ensures own { result.global ≡ false }
    {
        let arg = Arg::new(alloc, self.name).action(ArgAction::Set);
        if self.name.is_empty() {
            arg
        } else {
            arg.long(self.name)
        }
    }

    // The number of the option where the words give it this value, or none.
    fn number(&self, value: Option<&str>) -> Result<Option<u64>, WordsFault>
        ensures given { IfOk result (λ number.
            Gives (option_row self.now) (value_list (option_map (λ s. s.now) value.entry)) number) }
        ensures usage { result ≡ Err WordsFault.Usage → (number : Option ℕ) →
            ¬ Gives (option_row self.now)
            (value_list (option_map (λ s. s.now) value.entry)) number }
        ensures memory { result ≢ Err WordsFault.Memory }
    {
        let Some(text) = value else {
            return self.left_out.number();
        };
        match number_of(text) {
            Some(number) if (self.least..=self.greatest).contains(&number) => Ok(Some(number)),
            _ => Err(WordsFault::Usage),
        }
    }
}

impl LeftOut {
    // The number of an option that is left out.
    fn number(self) -> Result<Option<u64>, WordsFault>
        ensures given { IfOk result (λ number. IsLeftOut self number) }
        ensures usage { result ≡ Err WordsFault.Usage → (number : Option ℕ)
            → ¬ IsLeftOut self number }
        ensures memory { result ≢ Err WordsFault.Memory }
    {
        match self {
            LeftOut::Default(number) => Ok(Some(number)),
            LeftOut::Refused => Err(WordsFault::Usage),
            LeftOut::NoNumber => Ok(None),
        }
    }
}

// Whether a word behind the first begins with a hyphen and names no option. `clap` reads some of
// these otherwise: it takes `-` for a value, and what follows `--` for no options.
fn has_stray(words: &[String]) -> bool
    ensures { result ≡ has_stray_word words.now }
{
    match words.split_first() {
        Some((_, rest)) => is_any_stray(rest),
        None => false,
    }
}

fn is_any_stray(words: &[String]) -> bool
    ensures { result ≡ list_any (λ word. is_stray_word (string_bytes word)) words.now }
{
    for word in words {
        if is_stray(word.as_str()) {
            return true;
        }
    }
    false
}

fn is_stray(word: &str) -> bool
    ensures { result ≡ is_stray_word word.now }
{
    match word.as_bytes() {
        [] => false,
        [first] | [first, _] => *first == b'-',
        [first, second, ..] => *first == b'-' && *second != b'-',
    }
}

// The number that 1 to 19 decimal digits write.
fn number_of(text: &str) -> Option<u64>
    ensures found { IfSome result (λ number.
        IsValue text.now × (number ≡ digits_value 10 text.now)) }
    ensures none { IfNone result (¬ IsValue text.now) }
{
    if is_value(text) {
        text.parse().ok()
    } else {
        None
    }
}

fn is_value(text: &str) -> bool
    ensures { IsTrue result ↔ IsValue text.now }
{
    let digits = text.as_bytes();
    !digits.is_empty() && digits.len() <= MOST_DIGITS && all_digits(digits)
}

fn all_digits(bytes: &[u8]) -> bool
    ensures { result ≡ list_all is_ascii_digit bytes.now }
{
    bytes.iter().all(|byte| byte.is_ascii_digit())
}
