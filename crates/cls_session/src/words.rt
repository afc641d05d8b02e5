ghost use Rattle.std.specs.Prelude.{◌≡◌, ℕ, IsTrue, ◌↔◌, IfOk, IfErr, MatchOption};
ghost use Rattle.std.specs.List.{list_all};
ghost use Rattle.std.specs.Option.{SomeIff};
ghost use Rattle.cls_lexer.specs.Characters.{is_digit};
ghost use Rattle.cls_lexer.specs.Numerals.{is_numeral, number_value};
ghost use Rattle.cls_session.specs.Commands.{texts_of, IsValue, IsGenerate, Asks, AsksNothing, HasNumbersInRange};
ghost use Rattle.cls_session.specs.Settings.{BeginsWith, BeginsWithNone};

use crate::settings::{OptionName, Values};
use cls_base::limits::MAX_GENERATED;
use cls_engine::Options;
use cls_lexer::Numeral;
use thiserror::Error;

/// The most digits of a number.
const MAX_DIGITS: usize = 9;

/// What the words of the command line ask for.
#[derive(Clone, Copy, Debug)]
pub enum Command {
    /// To answer the lines of the input.
    Session(Options),
    /// To answer the lines of the generator's text for this number. The input isn't read.
    Generate(Options, u32),
}

/// The words aren't in the form of the usage line.
#[derive(Clone, Copy, Debug, PartialEq, Eq, Error)]
#[error("the words are not in the form of the usage line")]
pub struct UsageFault;

/// Reads the words of the command line, the program's own name left out.
pub fn read_words(words: &[String]) -> Result<Command, UsageFault>
    ensures asked { IfOk result (Asks (texts_of words.now)) }
    ensures in_range { IfOk result HasNumbersInRange }
    ensures nothing_asked { IfErr result (λ _. AsksNothing (texts_of words.now)) }
{
    let mut values = Values {
        workers: None,
        goals: None,
        rules: None,
        pool: None,
    };
    let mut rest = words;
    while !rest.is_empty() {
        if let Some(count) = read_generate(rest) {
            return Ok(Command::Generate(values.options(), count));
        }
        let Some((option, value, others)) = read_setting(rest) else {
            return Err(UsageFault);
        };
        if values.get(option).is_some() {
            return Err(UsageFault);
        }
        values.set(option, value);
        rest = others;
    }
    Ok(Command::Session(values.options()))
}

/// The option and the value that the words begin with, and the words after them.
fn read_setting(words: &[String]) -> Option<(OptionName, u32, &[String])>
    ensures { MatchOption result (BeginsWithNone (texts_of words.now))
        (λ x. BeginsWith (texts_of words.now) x.0 x.1 (texts_of x.2.now)) }
{
    let [option, value, others @ ..] = words else {
        return None;
    };
    let option = OptionName::read(option.as_str())?;
    let value = read_value(value.as_str(), option.greatest())?;
    Some((option, value, others))
}

/// The number of the generator, if the words are `generate` and such a number.
fn read_generate(words: &[String]) -> Option<u32>
    ensures { MatchOption result ((n : ℕ) → IsGenerate (texts_of words.now) n → ⊥)
        (IsGenerate (texts_of words.now)) }
{
    let [word, value] = words else {
        return None;
    };
    match word.as_str() {
        "generate" => read_value(value.as_str(), MAX_GENERATED),
        _ => None,
    }
}

/// The number from 1 to the greatest that the word spells in at most nine digits.
fn read_value(word: &str, greatest: u32) -> Option<u32>
    ensures { SomeIff result (IsValue greatest word.now) (number_value word.now) }
{
    if word.len() > MAX_DIGITS || !is_numeral(word) {
        return None;
    }
    match (Numeral { text: word }).value() {
        Some(number) if 1 <= number && number <= greatest => Some(number),
        _ => None,
    }
}

/// Whether the word is decimal digits, at least one.
fn is_numeral(word: &str) -> bool
    ensures { IsTrue result ↔ IsTrue (is_numeral word.now) }
{
    !word.is_empty() && are_digits(word.as_bytes())
}

/// Whether the bytes are decimal digits.
fn are_digits(bytes: &[u8]) -> bool
    ensures { result ≡ list_all is_digit bytes.now }
{
    bytes.iter().all(|byte| byte.is_ascii_digit())
}
