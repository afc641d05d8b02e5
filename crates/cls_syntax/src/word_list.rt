//! Names or numbers up to the end of a line.
ghost use Rattle.std.specs.Prelude.{◌≡◌, ◌≤◌, ◌&&◌, length};
ghost use Rattle.std.specs.List.{prefix_len};
ghost use Rattle.cls_lexer.specs.Words.{word_of};
ghost use Rattle.cls_syntax.specs.Roles.{may_stand};
ghost use Rattle.cls_syntax.specs.Sorts.{is_name, is_number};
ghost use Rattle.cls_syntax.specs.Forms.{names, numbers};
ghost use Rattle.cls_syntax.specs.Readings.{Reads};
ghost use Rattle.cls_syntax.specs.TokenTexts.{texts};
ghost use Rattle.cls_syntax.specs.SpelledNumbers.{numerals_of};

use crate::numeral_list::NumeralList;
use crate::role::Role;
use crate::sort::{is_name, is_number};
use crate::stop::Stop;
use cls_lexer::Token;

/// The tokens, if all of them are names in this role.
pub fn names_at<'t, 'a>(
    tokens: &'t [Token<'a>],
    role: Role,
) -> Result<&'t [Token<'a>], Stop<'t, 'a>>
    ensures { Reads (names role) tokens.now result (λ x. texts x.now) }
{
    let (front, rest) = tokens.split_at(name_count(tokens, role));
    if rest.is_empty() {
        Ok(front)
    } else {
        Err(Stop {
            rest,
            wants_name: role.takes_names(),
        })
    }
}

/// The numbers, whatever their values, that all the tokens are.
pub fn numbers_at<'t, 'a>(tokens: &'t [Token<'a>]) -> Result<NumeralList<'t, 'a>, Stop<'t, 'a>>
    ensures { Reads (numbers 0 0) tokens.now result numerals_of }
{
    let (front, rest) = tokens.split_at(number_count(tokens));
    if rest.is_empty() {
        Ok(NumeralList { tokens: front })
    } else {
        Err(Stop {
            rest,
            wants_name: false,
        })
    }
}

fn name_count(tokens: &[Token], role: Role) -> usize
    ensures count { result ≡ prefix_len (λ t. is_name (word_of t) && may_stand role t.text.now) tokens.now }
    ensures within { result ≤ length tokens.now }
{
    tokens
        .iter()
        .take_while(|token| is_name(token) && role.allows(token.text))
        .count()
}

fn number_count(tokens: &[Token]) -> usize
    ensures count { result ≡ prefix_len (λ t. is_number (word_of t)) tokens.now }
    ensures within { result ≤ length tokens.now }
{
    tokens.iter().take_while(|token| is_number(token)).count()
}
