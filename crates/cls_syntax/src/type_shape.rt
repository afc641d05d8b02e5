ghost use Rattle.std.specs.Prelude.{◌≡◌, ◌+◌, ◌<◌, ◌≤◌, ◌^◌, map, length, MatchResult};
ghost use Rattle.cls_lexer.specs.Words.{word_of};
ghost use Rattle.cls_syntax.specs.Sorts.{sort_of};
ghost use Rattle.cls_syntax.specs.TypeShapes.{shape_start, with_node, opened, shape_operand, shape_after, shape_step, shape_stopped, shape_reading};

use crate::sort::{Sort, sort_of};
use cls_lexer::Token;

/// What may come next inside a type.
#[derive(Clone, Copy, Debug)]
pub(crate) enum Mode {
    /// An atom.
    Operand,
    /// The name of a variable.
    AfterDollar,
    /// A parenthesis, or what may come after an atom.
    AfterName,
    /// An operator, or the end of a parenthesis or of the type.
    After,
}

/// What is known of a type while its tokens are recognised.
#[derive(Clone, Copy, Debug)]
pub(crate) struct TypeShape {
    mode: Mode,
    depth: usize,
    nodes: usize,
}

impl TypeShape {
    /// At the beginning of a type.
    pub(crate) fn new() -> TypeShape
        ensures { result ≡ shape_start }
    {
        TypeShape {
            mode: Mode::Operand,
            depth: 0,
            nodes: 0,
        }
    }

    /// After a token of this sort. None where it can't follow.
    fn step(self, sort: Sort) -> Option<TypeShape>
        requires { self.depth + 1 < 2 ^ 64 }
        ensures { result ≡ shape_step self sort }
    {
        match self.mode {
            Mode::Operand => self.at_operand(sort),
            Mode::AfterDollar => match sort {
                Sort::Name => Some(self.with_node(Mode::After)),
                _ => None,
            },
            Mode::AfterName => match sort {
                Sort::Open => Some(self.opened()),
                _ => self.with_node(Mode::After).after(sort),
            },
            Mode::After => self.after(sort),
        }
    }

    /// Where an atom may stand.
    fn at_operand(self, sort: Sort) -> Option<TypeShape>
        requires { self.depth + 1 < 2 ^ 64 }
        ensures { result ≡ shape_operand self sort }
    {
        match sort {
            Sort::Omega => Some(self.with_node(Mode::After)),
            Sort::Name => Some(self.with_node(Mode::AfterName)),
            Sort::Dollar => Some(TypeShape {
                mode: Mode::AfterDollar,
                depth: self.depth,
                nodes: self.nodes,
            }),
            Sort::Open => Some(self.opened()),
            _ => None,
        }
    }

    /// After an atom.
    fn after(self, sort: Sort) -> Option<TypeShape>
        ensures { result ≡ shape_after self sort }
    {
        match sort {
            Sort::To | Sort::And | Sort::Times => Some(self.with_node(Mode::Operand)),
            Sort::Close if self.depth > 0 => Some(TypeShape {
                mode: Mode::After,
                depth: self.depth - 1,
                nodes: self.nodes,
            }),
            _ => None,
        }
    }

    /// One node more.
    fn with_node(self, mode: Mode) -> TypeShape
        ensures { result ≡ with_node self mode }
    {
        TypeShape {
            mode,
            depth: self.depth,
            nodes: self.nodes.saturating_add(1),
        }
    }

    /// One parenthesis more.
    fn opened(self) -> TypeShape
        requires { self.depth + 1 < 2 ^ 64 }
        ensures { result ≡ opened self }
    {
        TypeShape {
            mode: Mode::Operand,
            depth: self.depth + 1,
            nodes: self.nodes,
        }
    }

    /// No token follows at the place: the end of the type with its nodes, or the stop.
    fn stopped(self, place: usize) -> Result<(usize, usize), (usize, bool)>
        ensures { result ≡ shape_stopped self place }
    {
        match self.mode {
            Mode::After if self.depth == 0 => Ok((place, self.nodes)),
            Mode::AfterName if self.depth == 0 => Ok((place, self.nodes.saturating_add(1))),
            Mode::Operand | Mode::AfterDollar => Err((place, true)),
            _ => Err((place, false)),
        }
    }
}

/// Where the type ends that the tokens begin with, and its nodes as far as a `usize` counts them. Else the place of the
/// first token that can't follow, and whether any name could stand there.
pub(crate) fn type_end(tokens: &[Token]) -> Result<(usize, usize), (usize, bool)>
    ensures value { result ≡ shape_reading shape_start 0 (map (λ l. sort_of (word_of l)) tokens.now) }
    ensures within { MatchResult result (λ r. r.0 ≤ length tokens.now) (λ r. r.0 ≤ length tokens.now) }
{
    let mut shape = TypeShape::new();
    for (place, token) in tokens.iter().enumerate() {
        match shape.step(sort_of(token)) {
            Some(next) => shape = next,
            None => return shape.stopped(place),
        }
    }
    shape.stopped(tokens.len())
}
