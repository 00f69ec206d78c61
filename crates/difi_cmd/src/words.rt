ghost use Rattle.std.specs.Prelude.{◌≡◌, ◌≢◌, IfOk, IfSome, IfNone, Option, List, ℕ, true};
ghost use Rattle.std.specs.Prelude.{All, codes, map, string_bytes};
ghost use Rattle.difi_cmd.specs.LineOfWords.{AreWithin, Asks, NamesCommand, command_of};
ghost use Rattle.difi_cmd.specs.LineOfWords.{are_rows, numbers_of, option_rows, row_of};

use crate::options::{LeftOut, OptionRow, WordsFault, numbers_given};
use difi_texts::Listing;
use std::alloc::Global;

/// A command of the program.
#[derive(Clone, Copy, Debug, PartialEq, Eq)]
pub(crate) enum CommandName {
    /// `check` or `show`, by what is told of the frames.
    List(Listing),
    /// `migrate`.
    Migrate,
    /// `replay`.
    Replay,
}

/// What a line of words asks for: a command, with what its options say.
#[derive(Clone, Copy, Debug, PartialEq, Eq)]
pub(crate) enum Line {
    /// The frames of a record are listed.
    List(ListOptions),
    /// A record is written in form 2; so many of its bytes are judged at most.
    Migrate { max_bytes: u64 },
    /// A record is replayed; so many of its bytes are judged at most.
    Replay { max_bytes: u64 },
}

/// What is listed.
#[derive(Clone, Copy, Debug, PartialEq, Eq)]
pub(crate) struct ListOptions {
    /// What is told of the frames.
    pub(crate) listing: Listing,
    /// How many bytes of the record are judged at most.
    pub(crate) max_bytes: u64,
}

/// What the word of a command stands for.
#[derive(Clone, Copy, Debug, PartialEq, Eq)]
struct CommandRow {
    command: CommandName,
    options: &'static [OptionRow],
}

const MAX_BYTES: OptionRow = OptionRow {
    name: "max-bytes",
    least: 1,
    greatest: 1 << 62,
    left_out: LeftOut::Default(1 << 40),
};

// The table of the commands: the word of each, and its options. A command joins by a row here and in
// `row_of`, with its line in `Line`, `line_with`, `command_of` and `numbers_of`.
fn command_row(word: &str) -> Option<CommandRow>
    ensures found { IfSome result (λ row. word.now ≡ (row_of row.command).word) }
    ensures options { IfSome result (λ row. option_rows row.options.now
        ≡ (row_of row.command).options) }
    ensures none { IfNone result ((command : CommandName) → word.now ≢ (row_of command).word) }
{
    let row = match word {
        "check" => CommandRow {
            command: CommandName::List(Listing::Check),
            options: &[MAX_BYTES],
        },
        "show" => CommandRow {
            command: CommandName::List(Listing::Show),
            options: &[MAX_BYTES],
        },
        "migrate" => CommandRow {
            command: CommandName::Migrate,
            options: &[MAX_BYTES],
        },
        "replay" => CommandRow {
            command: CommandName::Replay,
            options: &[MAX_BYTES],
        },
        _ => return None,
    };
    Some(row)
}

// The line of a command whose options have these numbers, in the order of the table.
fn line_with(command: CommandName, numbers: &[Option<u64>]) -> Option<Line>
    requires { AreWithin (row_of command).options numbers.now }
    ensures command { IfSome result (λ line. command_of line ≡ command) }
    ensures numbers { IfSome result (λ line. numbers_of line ≡ numbers.now) }
    ensures none { IfNone result ((line : Line) →
        command_of line ≡ command → numbers_of line ≢ numbers.now) }
{
    match (command, numbers) {
        (CommandName::List(listing), [Some(max_bytes)]) => Some(Line::List(ListOptions {
            listing,
            max_bytes: *max_bytes,
        })),
        (CommandName::Migrate, [Some(max_bytes)]) => Some(Line::Migrate {
            max_bytes: *max_bytes,
        }),
        (CommandName::Replay, [Some(max_bytes)]) => Some(Line::Replay {
            max_bytes: *max_bytes,
        }),
        _ => None,
    }
}

/// What these words ask for, which are those behind the program's name: first the word of a
/// command, then its options in any order, each as `--max-bytes N` or as `--max-bytes=N`.
pub(crate) fn line_of(alloc: Global, words: &[String]) -> Result<Line, WordsFault>
    ensures found { IfOk result (λ line. Asks words.now line) }
    ensures usage { result ≡ Err WordsFault.Usage → (line : Line) → ¬ Asks words.now line }
    ensures within { IfOk result (λ line.
        AreWithin (row_of (command_of line)).options (numbers_of line)) }
{
    let Some(row) = first_row(words) else {
        return Err(WordsFault::Usage);
    };
    let numbers = match numbers_given(alloc, row.options, words) {
        Ok(numbers) => numbers,
        Err(fault) => return Err(fault),
    };
    match line_with(row.command, &numbers) {
        Some(line) => Ok(line),
        None => Err(WordsFault::Usage),
    }
}

// The row of the command that the first word names.
fn first_row(words: &[String]) -> Option<CommandRow>
    ensures found { IfSome result (λ row. NamesCommand words.now row.command) }
    ensures options { IfSome result (λ row. option_rows row.options.now
        ≡ (row_of row.command).options) }
    ensures rows { IfSome result (λ row. are_rows (option_rows row.options.now) ≡ true) }
    ensures none { IfNone result ((command : CommandName) → ¬ NamesCommand words.now command) }
{
    command_row(words.first()?.as_str())
}

/// Laws that a proof can cite: words ask for one line at most, and `--` is none of them.
#[inline]
pub fn words_ask_for_one_line(words: &[String])
    ensures one_line { (line other : Line) →
        Asks words.now line → Asks words.now other → line ≡ other }
    ensures no_dashes { (line : Line) → Asks words.now line →
        All (λ word. word ≢ codes "--") (map string_bytes words.now) }
{}
