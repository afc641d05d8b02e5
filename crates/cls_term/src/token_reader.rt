//! Reads a text that is one term.
ghost use Rattle.std.specs.Prelude.{◌≡◌, ◌<◌, ◌^◌, false, not, map, length, MatchResult, IfOk, OnOk, position};
ghost use Rattle.std.specs.List.{list_any};
ghost use Rattle.std.specs.Str.{bytes_eq};
ghost use Rattle.cls_lexer.specs.Words.{words};
ghost use Rattle.cls_lexer.specs.Words.{word_of, words_of};
ghost use Rattle.cls_lexer.specs.Tokens.{tokens_of, located};
ghost use Rattle.cls_lexer.specs.Names.{number_of};
ghost use Rattle.cls_syntax.specs.Forms.{a_term, nothing, ◌⨾◌};
ghost use Rattle.cls_syntax.specs.Readings.{Reads};
ghost use Rattle.cls_syntax.specs.SpelledTerms.{term_text};
ghost use Rattle.cls_term.specs.TermReadings.{term_of};
ghost use Rattle.cls_term.specs.TokenFaults.{IsWholeTerm, IsTermIn, is_unknown, IsNoTerm};

use crate::code_builder::build;
use crate::coded_term::CodedTerm;
use crate::term::Term;
use crate::token_fault::TokenFault;
use cls_base::OutOfMemory;
use cls_lexer::{Names, Token, byte_at, tokens};
use cls_syntax::{SpelledTerm, Stop, end_at, is_name, is_too_deep, term_at};
use std::alloc::Global;

/// The term that the whole text spells, over the components of the table.
pub fn read_token(alloc: Global, components: &Names, text: &str) -> Result<Term, TokenFault>
    requires { length text.now < 2 ^ 32 }
    ensures exact { MatchResult result (IsTermIn components.now text.now) (IsNoTerm components.now text.now) }
    ensures known { OnOk result (list_any (is_unknown components.now) (words_of text.now) ≡ false) }
{
    let tokens = tokens(alloc, text)?;
    let spelled = whole_term(text, &tokens)?;
    if let Some(place) = first_unknown(components, &tokens) {
        return Err(TokenFault::UnknownComponent(byte_at(text, &tokens, place)));
    }
    let term = spelled_term(alloc, components, &spelled)?.term(alloc)?;
    Ok(term)
}

/// The term that the tokens spell, with the numbers of its components.
pub fn spelled_term(
    alloc: Global,
    components: &Names,
    spelled: &SpelledTerm,
) -> Result<CodedTerm, OutOfMemory>
    ensures { IfOk result (λ e. e ≡ term_of (number_of components.now) (term_text spelled.now)) }
{
    Ok(CodedTerm::from_vec(build(alloc, components, spelled)?))
}

/// The term that the tokens of the text spell.
fn whole_term<'t, 'a>(
    text: &str,
    tokens: &'t [Token<'a>],
) -> Result<SpelledTerm<'t, 'a>, TokenFault>
    requires few { length text.now < 2 ^ 32 }
    requires tokens { map located tokens.now ≡ tokens_of text.now }
    requires words { words tokens.now ≡ words_of text.now }
    ensures { MatchResult result (λ spelled. IsWholeTerm text.now (term_text spelled))
        (λ fault. (table : _) → IsNoTerm table text.now fault) }
{
    if is_too_deep(tokens) {
        return Err(TokenFault::TooDeep);
    }
    match term_line(tokens) {
        Ok(spelled) => Ok(spelled),
        Err(stop) => Err(TokenFault::BadToken(stop.byte(text, tokens))),
    }
}

/// A term and nothing after it.
fn term_line<'t, 'a>(tokens: &'t [Token<'a>]) -> Result<SpelledTerm<'t, 'a>, Stop<'t, 'a>>
    ensures { Reads (a_term ⨾ nothing) tokens.now result (λ x. (term_text x, tt)) }
{
    let (spelled, rest) = term_at(tokens)?;
    end_at(rest)?;
    Ok(spelled)
}

/// The place of the first name of the term that isn't in the table.
pub fn first_unknown(components: &Names, tokens: &[Token]) -> Option<usize>
    ensures { result ≡ position (is_unknown components.now) (words tokens.now) }
{
    first_absent(components, tokens)
}

fn first_absent(components: &Names, tokens: &[Token]) -> Option<usize>
    ensures { result ≡ position (λ l. is_unknown components.now (word_of l)) tokens.now }
{
    tokens
        .iter()
        .position(|token| is_unknown(components, token))
}

fn is_unknown(components: &Names, token: &Token) -> bool
    ensures { result ≡ is_unknown components.now (word_of token.now) }
{
    is_name(token) && components.find(token.text).is_none()
}
