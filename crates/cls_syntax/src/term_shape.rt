ghost use Rattle.std.specs.Prelude.{◌≡◌, ◌+◌, ◌<◌, ◌≤◌, ◌^◌, map, length, MatchResult};
ghost use Rattle.cls_lexer.specs.Words.{word_of};
ghost use Rattle.cls_syntax.specs.Sorts.{sort_of};
ghost use Rattle.cls_syntax.specs.TermShapes.{shape_start, shape_after, shape_step, shape_stopped, shape_reading};

use crate::sort::{Sort, sort_of};
use cls_lexer::Token;

/// What may come next inside a term.
#[derive(Clone, Copy, Debug)]
pub(crate) enum TermMode {
    /// A component's name.
    Operand,
    /// A parenthesis, or what may come after a term.
    AfterName,
    /// A comma, or the end of a parenthesis or of the term.
    After,
}

/// What is known of a term while its tokens are recognised.
#[derive(Clone, Copy, Debug)]
pub(crate) struct TermShape {
    mode: TermMode,
    depth: usize,
}

impl TermShape {
    /// At the beginning of a term.
    pub(crate) fn new() -> TermShape
        ensures { result ≡ shape_start }
    {
        TermShape {
            mode: TermMode::Operand,
            depth: 0,
        }
    }

    /// After a token of this sort. None where it can't follow.
    fn step(self, sort: Sort) -> Option<TermShape>
        requires { self.depth + 1 < 2 ^ 64 }
        ensures { result ≡ shape_step self sort }
    {
        match self.mode {
            TermMode::Operand => match sort {
                Sort::Name => Some(TermShape {
                    mode: TermMode::AfterName,
                    depth: self.depth,
                }),
                _ => None,
            },
            TermMode::AfterName => match sort {
                Sort::Open => Some(TermShape {
                    mode: TermMode::Operand,
                    depth: self.depth + 1,
                }),
                _ => self.after(sort),
            },
            TermMode::After => self.after(sort),
        }
    }

    /// After a term.
    fn after(self, sort: Sort) -> Option<TermShape>
        ensures { result ≡ shape_after self.depth sort }
    {
        match sort {
            Sort::Comma if self.depth > 0 => Some(TermShape {
                mode: TermMode::Operand,
                depth: self.depth,
            }),
            Sort::Close if self.depth > 0 => Some(TermShape {
                mode: TermMode::After,
                depth: self.depth - 1,
            }),
            _ => None,
        }
    }

    /// No token follows at the place: the end of the term, or the stop.
    fn stopped(self, place: usize) -> Result<usize, (usize, bool)>
        ensures { result ≡ shape_stopped self place }
    {
        match self.mode {
            TermMode::After | TermMode::AfterName if self.depth == 0 => Ok(place),
            TermMode::Operand => Err((place, true)),
            _ => Err((place, false)),
        }
    }
}

/// Where the term ends that the tokens begin with. Else the place of the first token that can't follow, and whether any
/// name could stand there.
pub(crate) fn term_end(tokens: &[Token]) -> Result<usize, (usize, bool)>
    ensures value { result ≡ shape_reading shape_start 0 (map (λ l. sort_of (word_of l)) tokens.now) }
    ensures within { MatchResult result (λ end. end ≤ length tokens.now) (λ r. r.0 ≤ length tokens.now) }
{
    let mut shape = TermShape::new();
    for (place, token) in tokens.iter().enumerate() {
        match shape.step(sort_of(token)) {
            Some(next) => shape = next,
            None => return shape.stopped(place),
        }
    }
    shape.stopped(tokens.len())
}
