ghost use Rattle.std.specs.Prelude.{◌≡◌, ◌<◌, ◌^◌, map, length};
ghost use Rattle.cls_lexer.specs.Tokens.{tokens_of, located};
ghost use Rattle.cls_lexer.specs.Words.{words, words_of};

use crate::fault::LineFault;
use crate::form::spelled_query;
use crate::query::SpelledQuery;
use cls_lexer::{Token, byte_at};
use cls_syntax::{Stop, is_too_deep};

/// A line with its tokens.
#[derive(Clone, Copy, Debug)]
pub struct CutLine<'t, 'a> {
    pub text: &'a str,
    pub tokens: &'t [Token<'a>],
    // The bytes of the line can be counted by a `u32`.
    ghost few: { length text.now < 2 ^ 32 },
    // The tokens are those of the line, and say what it says.
    ghost cut: { map located tokens.now ≡ tokens_of text.now },
    ghost spoken: { words tokens.now ≡ words_of text.now },
}

impl<'t, 'a> CutLine<'t, 'a> {
    ghost use Rattle.std.specs.Prelude.{◌-◌, ◌&&◌, Some, IfOk};
    ghost use Rattle.cls_lexer.specs.Tokens.{byte_at};
    ghost use Rattle.cls_syntax.specs.Faults.{Says};
    ghost use Rattle.cls_syntax.specs.Sorts.{begins_reserved};
    ghost use Rattle.cls_query.specs.FormAnswers.{query_text};
    ghost use Rattle.cls_query.specs.Queries.{query_words, QueryStands};
    ghost use Rattle.cls_query.specs.QueryErrors.{place_words};
    ghost use Rattle.cls_query.specs.ReadQueries.{fault_words};
    ghost use Rattle.cls_query.specs.Steps.{spelling_errors, Tests};

    /// The byte at which the token of this number begins, or the line's length if it has no such token.
    pub fn byte(&self, place: usize) -> u32
        ensures { result ≡ byte_at self.now.text.now place }
    {
        byte_at(self.text, self.tokens, place)
    }

    /// The query as it is spelled.
    pub fn spelled(&self) -> Result<SpelledQuery<'t, 'a>, LineFault<'a>>
        ensures tested { Tests (spelling_errors self.now.text.now) result }
        ensures says { IfOk result (λ query. Says query_words QueryStands (query_text query)
            (words_of self.now.text.now)) }
    {
        if is_too_deep(self.tokens) {
            return Err(LineFault::TooDeep);
        }
        match spelled_query(self.tokens) {
            Ok(query) => Ok(query),
            Err(stop) => Err(self.left_at(&stop)),
        }
    }

    /// The fault of a line that is no query any more there.
    pub(crate) fn left_at(&self, stop: &Stop) -> LineFault<'a>
        ensures { fault_words result
            ≡ Some (place_words (stop.now.wants_name && begins_reserved (words stop.now.rest.now))
            (byte_at self.now.text.now (length self.now.tokens.now - length stop.now.rest.now))) }
    {
        let byte = stop.byte(self.text, self.tokens);
        if stop.is_reserved() {
            LineFault::ReservedName(byte)
        } else {
            LineFault::Unexpected(byte)
        }
    }
}
