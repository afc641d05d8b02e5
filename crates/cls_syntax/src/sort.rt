ghost use Rattle.std.specs.Prelude.{◌≡◌};
ghost use Rattle.std.specs.Str.{bytes_eq};
ghost use Rattle.cls_lexer.specs.Words.{word_of, reserved_name};
ghost use Rattle.cls_syntax.specs.Sorts.{sort_of, is_name, is_number};
ghost use Rattle.cls_syntax.specs.TypeSchemas.{is_dollar};

use cls_lexer::{Token, TokenKind};

/// What a token is to a type or a term.
#[derive(Clone, Copy, Debug, PartialEq, Eq)]
pub(crate) enum Sort {
    /// The reserved name `omega`.
    Omega,
    /// Any other name.
    Name,
    /// `->`
    To,
    /// `&`
    And,
    /// `*`
    Times,
    /// `(`
    Open,
    /// `)`
    Close,
    /// `,`
    Comma,
    /// `$`
    Dollar,
    /// What stands in no type and in no term.
    Other,
}

/// What the token is to a type or a term.
pub(crate) fn sort_of(token: &Token) -> Sort
    ensures { result ≡ sort_of (word_of token.now) }
{
    match token.kind {
        TokenKind::Name => {
            if is_reserved(token.text) {
                Sort::Omega
            } else {
                Sort::Name
            }
        }
        TokenKind::To => Sort::To,
        TokenKind::And => Sort::And,
        TokenKind::Times => Sort::Times,
        TokenKind::Open => Sort::Open,
        TokenKind::Close => Sort::Close,
        TokenKind::Comma => Sort::Comma,
        TokenKind::Dollar => Sort::Dollar,
        TokenKind::Number
        | TokenKind::Colon
        | TokenKind::Equals
        | TokenKind::Bar
        | TokenKind::AtMost
        | TokenKind::Bad => Sort::Other,
    }
}

/// Whether the text is `omega`, which stands for no constructor, variable or component.
#[tactic(auto, using(crate::proofs::ReservedNames::other_length))]
pub(crate) fn is_reserved(text: &str) -> bool
    ensures { result ≡ bytes_eq text.now reserved_name }
{
    text.len() == 5 && is_omega(text)
}

/// The same by a comparison. Out of line for speed: few names have five bytes.
#[inline(never)]
fn is_omega(text: &str) -> bool
    ensures { result ≡ bytes_eq text.now reserved_name }
{
    text == "omega"
}

/// Whether the token is a name that isn't reserved.
pub fn is_name(token: &Token) -> bool
    ensures { result ≡ is_name (word_of token.now) }
{
    matches!(sort_of(token), Sort::Name)
}

/// Whether the token is a number.
#[tactic(auto, using(crate::proofs::TokenLists::number_kind))]
pub(crate) fn is_number(token: &Token) -> bool
    ensures { result ≡ is_number (word_of token.now) }
{
    matches!(token.kind, TokenKind::Number)
}

/// Whether the token is a `$`.
#[tactic(auto, using(crate::proofs::Dollars::dollar_kind))]
pub(crate) fn is_dollar(token: &Token) -> bool
    ensures { result ≡ is_dollar (word_of token.now) }
{
    matches!(token.kind, TokenKind::Dollar)
}
