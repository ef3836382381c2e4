//! The words of a command.

ghost use Rattle.std.specs.Prelude.{◌≡◌, [], ◌∷◌, length, nat_le, Some, None, if◌then◌else◌};
ghost use Rattle.std.specs.Char.{is_ascii_digit};
ghost use Rattle.std.specs.List.{list_all};
ghost use Rattle.std.specs.Option.{option_map};
ghost use Rattle.fst_top.specs.Answers.{command_of, fuel_of, most_fuel};
ghost use Rattle.fst_top.specs.Commands.{plain_command};

use fst_base::Name;

/// The most units of fuel.
const MOST_FUEL: u64 = 10_000_000;

/// A command with its file, its fuel and the words of its arguments.
#[derive(Clone, Copy, Debug)]
pub enum Command<'a> {
    Help,
    Version,
    Check(&'a str),
    Run(&'a str, u64, &'a [Name]),
    /// `run` with a word that is no fuel.
    BadFuel,
}

/// The command that the words are; they don't hold the program's name.
pub fn command_of(words: &[Name]) -> Option<Command<'_>>
    ensures { option_map plain_command result ≡ command_of words.now }
{
    match words {
        [word] => alone(word.text()),
        [word, file] => with_file(word.text(), file.text()),
        _ => longer(words),
    }
}

/// A command of more words than two.
fn longer(words: &[Name]) -> Option<Command<'_>>
    requires { (length words.now ≡ 1 → ⊥) × (length words.now ≡ 2 → ⊥) }
    ensures { option_map plain_command result ≡ command_of words.now }
{
    if let [word, file, fuel, arguments @ ..] = words {
        with_fuel(word.text(), file.text(), fuel.text(), arguments)
    } else {
        None
    }
}

fn alone(word: &str) -> Option<Command<'static>>
    ensures { option_map plain_command result ≡ command_of (word.now ∷ []) }
{
    match word {
        "--help" => Some(Command::Help),
        "--version" => Some(Command::Version),
        _ => None,
    }
}

fn with_file<'a>(word: &str, file: &'a str) -> Option<Command<'a>>
    ensures { option_map plain_command result ≡ command_of (word.now ∷ file.now ∷ []) }
{
    match word {
        "check" => Some(Command::Check(file)),
        _ => None,
    }
}

fn with_fuel<'a>(
    word: &str,
    file: &'a str,
    fuel: &str,
    arguments: &'a [Name],
) -> Option<Command<'a>>
    ensures { option_map plain_command result ≡ command_of (word.now ∷ file.now ∷ fuel.now ∷ arguments.now) }
{
    match word {
        "run" => match fuel_of(fuel) {
            Some(fuel) => Some(Command::Run(file, fuel, arguments)),
            None => Some(Command::BadFuel),
        },
        _ => None,
    }
}

/// The fuel that the word is: decimal digits of at most ten millions.
fn fuel_of(word: &str) -> Option<u64>
    ensures { result ≡ fuel_of word.now }
{
    if !are_digits(word.as_bytes()) {
        return None;
    }
    match u64::from_str_radix(word, 10) {
        Ok(fuel) => within(fuel),
        Err(_) => None,
    }
}

fn within(fuel: u64) -> Option<u64>
    ensures { result ≡ if nat_le fuel most_fuel then Some fuel else None }
{
    if fuel <= MOST_FUEL { Some(fuel) } else { None }
}

fn are_digits(word: &[u8]) -> bool
    ensures { result ≡ list_all is_ascii_digit word.now }
{
    word.iter().all(|byte| byte.is_ascii_digit())
}
