ghost use Rattle.std.specs.Prelude.{◌≡◌, ◌<◌, ◌^◌, ◌-◌, ◌&&◌, map, length};
ghost use Rattle.cls_lexer.specs.Tokens.{tokens_of, located, byte_at};
ghost use Rattle.cls_lexer.specs.Words.{words};
ghost use Rattle.cls_syntax.specs.Sorts.{begins_reserved};

use crate::sort::{Sort, sort_of};
use cls_lexer::{Token, byte_at};

/// Where the reading of a line stopped, since nothing that the line could be goes on there.
#[derive(Clone, Copy, Debug)]
pub struct Stop<'t, 'a> {
    /// The tokens from the first one on that can't follow, none if the line ends too early.
    pub rest: &'t [Token<'a>],
    /// Whether each name could stand there, but for `none` and `_`, of which some may not.
    pub wants_name: bool,
}

impl Stop<'_, '_> {
    /// The byte of the line at which the stop is: that of the first token that can't follow, or the line's length.
    pub fn byte(&self, line: &str, tokens: &[Token]) -> u32
        requires few { length line.now < 2 ^ 32 }
        requires tokens { map located tokens.now ≡ tokens_of line.now }
        ensures { result ≡ byte_at line.now (length tokens.now - length self.now.rest.now) }
    {
        byte_at(line, tokens, tokens.len().saturating_sub(self.rest.len()))
    }

    /// Whether `omega` stands there and a name could.
    pub fn is_reserved(&self) -> bool
        ensures { result ≡ (self.now.wants_name && begins_reserved (words self.now.rest.now)) }
    {
        self.wants_name && begins_reserved(self.rest)
    }
}

/// Whether the tokens begin with the reserved name.
pub(crate) fn begins_reserved(tokens: &[Token]) -> bool
    ensures { result ≡ begins_reserved (words tokens.now) }
{
    match tokens {
        [first, ..] => matches!(sort_of(first), Sort::Omega),
        [] => false,
    }
}
