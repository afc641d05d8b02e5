//! What a line says, or where it isn't spelled as a line of a repository.
ghost use Rattle.std.specs.Prelude.{◌≡◌, ◌<◌, ◌^◌, ◌-◌, ◌&&◌, ◌↔◌, false, IsTrue, codes, length, map, IfOk, OnOk, IfErr};
ghost use Rattle.cls_base.specs.Firsts.{IsSilent, First};
ghost use Rattle.cls_base.specs.Limits.{max_type_depth};
ghost use Rattle.cls_lexer.specs.Tokens.{tokens_of, located, byte_at};
ghost use Rattle.cls_lexer.specs.Words.{words, word_of, words_of};
ghost use Rattle.cls_syntax.specs.Depths.{most_open};
ghost use Rattle.cls_syntax.specs.Fronts.{is_word};
ghost use Rattle.cls_syntax.specs.Sorts.{begins_reserved};
ghost use Rattle.cls_repo.specs.Directives.{WordsSay, begins_word, begins_directive};
ghost use Rattle.cls_repo.specs.FaultWords.{IsFirst, fault_words};
ghost use Rattle.cls_repo.specs.LineFaults.{spelling_words};
ghost use Rattle.cls_repo.specs.Written.{directive_of, spelling_faults};

use crate::directive::{Directive, directive_at};
use crate::fault::FaultKind;
use cls_lexer::Token;
use cls_syntax::{Stop, is_name};

/// What the tokens of the line say.
///
/// The fault is `UnknownDirective`, otherwise `TooDeep` in a line other than `text`, otherwise at the first token with
/// which no line of a repository goes on, or at the line's length, `ReservedName` if `omega` stands there and a name
/// could, and `Unexpected` if not.
pub(crate) fn read_directive<'t, 'a>(
    text: &str,
    tokens: &'t [Token<'a>],
) -> Result<Directive<'t, 'a>, FaultKind>
    requires few { length text.now < 2 ^ 32 }
    requires tokens { map located tokens.now ≡ tokens_of text.now }
    requires words { words tokens.now ≡ words_of text.now }
    ensures says { IfOk result (λ d. WordsSay (directive_of d) (words_of text.now)) }
    ensures silent { OnOk result (IsSilent (First (spelling_faults text.now))) }
    ensures fault { IfErr result (IsFirst (spelling_faults text.now)) }
{
    if !begins_directive(tokens) {
        return Err(FaultKind::UnknownDirective);
    }
    if is_too_deep(tokens) {
        return Err(FaultKind::TooDeep);
    }
    match directive_at(tokens) {
        Ok(directive) => Ok(directive),
        Err(stop) => Err(fault_at(text, tokens, stop)),
    }
}

/// Whether too many parentheses are open at once. Those of a `text` line don't count.
fn is_too_deep(tokens: &[Token]) -> bool
    ensures { IsTrue result ↔ (begins_word (codes "text") (words tokens.now) ≡ false)
        × (max_type_depth < most_open 0 0 (words tokens.now)) }
{
    !begins_word(tokens, "text") && cls_syntax::is_too_deep(tokens)
}

/// The fault of a line that leaves the table here.
fn fault_at(text: &str, tokens: &[Token], stop: Stop) -> FaultKind
    requires few { length text.now < 2 ^ 32 }
    requires tokens { map located tokens.now ≡ tokens_of text.now }
    ensures { fault_words result ≡ spelling_words
        (byte_at text.now (length tokens.now - length stop.entry.rest.now))
        (stop.entry.wants_name && begins_reserved (words stop.entry.rest.now)) }
{
    let byte = stop.byte(text, tokens);
    if stop.is_reserved() {
        FaultKind::ReservedName(byte)
    } else {
        FaultKind::Unexpected(byte)
    }
}

/// Whether the first word is one with which a line of a repository begins.
fn begins_directive(tokens: &[Token]) -> bool
    ensures { result ≡ begins_directive (words tokens.now) }
{
    begins_word(tokens, "sub")
        || begins_word(tokens, "kind")
        || begins_word(tokens, "comp")
        || begins_word(tokens, "text")
        || begins_word(tokens, "end")
        || begins_word(tokens, "cost")
        || begins_word(tokens, "variance")
        || begins_word(tokens, "filter")
        || begins_word(tokens, "leaf")
        || begins_word(tokens, "app")
        || begins_word(tokens, "other")
}

/// Whether the tokens begin with this very word, which isn't `omega`.
fn begins_word(tokens: &[Token], word: &str) -> bool
    ensures { result ≡ begins_word word.now (words tokens.now) }
{
    match tokens {
        [first, ..] => is_word(first, word),
        [] => false,
    }
}

/// Whether the token is this very word, which isn't `omega`.
#[tactic(auto, using(cls_syntax::proofs::TokenFronts::word_tests))]
fn is_word(token: &Token, word: &str) -> bool
    ensures { result ≡ is_word word.now (word_of token.now) }
{
    is_name(token) && token.text == word
}
