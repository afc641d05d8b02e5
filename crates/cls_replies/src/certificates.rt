//! Which lines stand round a certificate, and which change the repository.
ghost use Rattle.std.specs.Prelude.{◌≡◌, ◌↔◌, ◌∷◌, [], IfOk, IsTrue};
ghost use Rattle.cls_lexer.specs.Words.{word_of};
ghost use Rattle.cls_query.specs.Changes.{begins_change};
ghost use Rattle.cls_syntax.specs.Fronts.{is_word};
ghost use Rattle.cls_replies.specs.LineKinds.{IsQed};
ghost use Rattle.cls_replies.specs.Steps.{IsOfKind};

use cls_base::OutOfMemory;
use cls_lexer::{Line, Token, first_token, tokens};
use cls_syntax::word_at;
use std::alloc::Global;

/// What a line is, outside of a certificate.
#[derive(Clone, Copy, Debug, PartialEq, Eq)]
pub(crate) enum LineKind {
    /// It asks for nothing.
    Skipped,
    /// The lines of a certificate follow it.
    Opening,
    /// It changes the repository.
    Changing,
    /// It is a query by itself.
    Single,
}

/// What the line is. A line that isn't a text opens nothing and changes nothing.
pub(crate) fn kind_of(alloc: Global, line: &Line) -> Result<LineKind, OutOfMemory>
    ensures { IfOk result (IsOfKind line.now) }
{
    let text = match line.content() {
        Ok(None) => return Ok(LineKind::Skipped),
        Ok(Some(text)) => text,
        Err(_) => return Ok(LineKind::Single),
    };
    let Some(first) = first_token(text) else {
        return Ok(LineKind::Single);
    };
    match word_at(&[first], "verify") {
        Ok(_) => Ok(LineKind::Opening),
        Err(_) => {
            if begins_change(first) {
                return Ok(LineKind::Changing);
            }
            Ok(LineKind::Single)
        }
    }
}

/// Whether the token is the first word of a change.
fn begins_change(first: Token) -> bool
    ensures { result ≡ begins_change (word_of first.entry ∷ []) }
{
    is_word(first, "add") || is_word(first, "drop")
}

/// Whether the token is this very word.
fn is_word(token: Token, word: &str) -> bool
    ensures { result ≡ is_word word.now (word_of token.entry) }
{
    match word_at(&[token], word) {
        Ok(_) => true,
        Err(_) => false,
    }
}

/// Whether the line ends a certificate.
#[tactic(auto, using(crate::proofs::LastLines::not_qed))]
pub(crate) fn is_qed(alloc: Global, line: &Line) -> Result<bool, OutOfMemory>
    ensures { IfOk result (λ yes. IsTrue yes ↔ IsQed line.now) }
{
    let Ok(text) = line.text() else {
        return Ok(false);
    };
    // Most lines begin with another byte, and their tokens needn't be known.
    if line.first_byte() != Some(b'q') {
        return Ok(false);
    }
    match word_at(&tokens(alloc, text)?, "qed") {
        Ok(rest) => Ok(rest.is_empty()),
        Err(_) => Ok(false),
    }
}
