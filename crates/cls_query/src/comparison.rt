//! Reads a comparison in one pass. Where types can be built on both sides of its sign, the line has no error; any other line
//! is left to the reading by forms, which finds the first error.
ghost use Rattle.std.specs.Prelude.{◌≡◌, ◌↔◌, ◌<◌, ◌*◌, ◌++◌, ◌∷◌, codes, length, take, position, IsTrue, IfOk, OnOk, OnErr, OnSome, IfSome, IfNone};
ghost use Rattle.cls_base.specs.Limits.{max_type_nodes};
ghost use Rattle.cls_lexer.specs.Skipped.{IsText};
ghost use Rattle.cls_lexer.specs.Words.{name, sign, words, words_of};
ghost use Rattle.cls_lexer.specs.declared.token.TokenKind.TheVariants.{AtMost};
ghost use Rattle.cls_syntax.specs.MeasuredTypes.{measured_type};
ghost use Rattle.cls_query.specs.Queries.{tables_of};
ghost use Rattle.cls_query.specs.ReadQueries.{asked_of, ReadsQuery};
ghost use Rattle.cls_query.specs.Comparisons.{is_at_most, IsSmall, IsWholeClosed, AreBuilt};

use crate::line::CutLine;
use crate::query::{BuiltQuery, Query};
use cls_base::OutOfMemory;
use cls_base::limits::MAX_TYPE_NODES;
use cls_lexer::{Names, Token, TokenKind};
use cls_syntax::{MeasuredTy, is_too_deep, read_measured_type, sign_at, word_at};
use std::alloc::Global;

impl<'t, 'a> CutLine<'t, 'a> {
    /// The comparison that the line is. None where it is none, has an error or a type of many tokens, and then the table is
    /// as before. The only error is out of memory, and leaves the table as before.
    pub fn comparison(
        &self,
        alloc: Global,
        constructors: &mut Names,
    ) -> Result<Option<BuiltQuery>, OutOfMemory>
        requires { IsText self.now.text.now }
        ensures read { IfOk result (λ read. IfSome read (λ query. (variables components filters : _)
            → ReadsQuery (tables_of constructors.old variables components filters) self.now.text.now (asked_of query)
            (tables_of constructors.new variables components filters))) }
        ensures left { IfOk result (λ read. IfNone read (constructors.new ≡ constructors.old)) }
        ensures stay { OnErr result (constructors.new ≡ constructors.old) }
    {
        let Some((lower, upper)) = self.sides() else {
            return Ok(None);
        };
        let count = constructors.len();
        match measured_types(alloc, constructors, lower, upper) {
            Ok(Some((lower, upper))) => Ok(Some(Query::Sub(lower, upper))),
            Ok(None) => {
                constructors.cut(count);
                Ok(None)
            }
            Err(fault) => {
                constructors.cut(count);
                Err(fault)
            }
        }
    }

    /// What stands before and behind the first `<=`, where the first word is `sub` and both are small.
    fn sides(&self) -> Option<(&'t [Token<'a>], &'t [Token<'a>])>
        ensures spelled { IfSome result (λ sides. words_of self.now.text.now
            ≡ name (codes "sub") ∷ (words sides.0.now ++ sign AtMost ∷ words sides.1.now)) }
        ensures lower { IfSome result (λ sides. IsSmall sides.0.now) }
        ensures upper { IfSome result (λ sides. IsSmall sides.1.now) }
    {
        let rest = word_at(self.tokens, "sub").ok()?;
        let (lower, behind) = rest.split_at(first_sign(rest)?);
        let upper = sign_at(behind, TokenKind::AtMost).ok()?;
        if is_small(lower) && is_small(upper) {
            Some((lower, upper))
        } else {
            None
        }
    }
}

/// The place of the first `<=`.
fn first_sign(tokens: &[Token]) -> Option<usize>
    ensures { result ≡ position (λ token. is_at_most token.kind) tokens.now }
{
    tokens.iter().position(|token| is_at_most(token))
}

fn is_at_most(token: &Token) -> bool
    ensures { result ≡ is_at_most token.now.kind }
{
    matches!(token.kind, TokenKind::AtMost)
}

/// Whether the tokens are few, and few parentheses open at once.
fn is_small(tokens: &[Token]) -> bool
    ensures { IsTrue result ↔ IsSmall tokens.now }
{
    is_short(tokens) && !is_too_deep(tokens)
}

/// Whether the tokens are too few for a type of more than [`MAX_TYPE_NODES`] nodes: two of them, a name and an operator, make
/// three nodes at most.
fn is_short(tokens: &[Token]) -> bool
    ensures { IsTrue result ↔ (3 * length tokens.now < 2 * max_type_nodes) }
{
    tokens.len() as u64 <= 2 * MAX_TYPE_NODES / 3
}

/// The types without variables that the tokens spell, with their measures and the names of the first one numbered first. Where
/// one is none, or memory runs out, the table may have grown.
fn measured_types(
    alloc: Global,
    constructors: &mut Names,
    lower: &[Token],
    upper: &[Token],
) -> Result<Option<(MeasuredTy, MeasuredTy)>, OutOfMemory>
    ensures lower { IfOk result (λ read. OnSome read (IsWholeClosed (words lower.now))) }
    ensures upper { IfOk result (λ read. OnSome read (IsWholeClosed (words upper.now))) }
    ensures built { IfOk result (λ read. IfSome read (λ types.
        AreBuilt constructors.old (words lower.now) (words upper.now) constructors.new
        (measured_type types.0) (measured_type types.1))) }
    ensures kept { take (length constructors.old) constructors.new ≡ constructors.old }
{
    let Some(lower) = read_measured_type(alloc, constructors, lower)? else {
        return Ok(None);
    };
    match read_measured_type(alloc, constructors, upper)? {
        Some(upper) => Ok(Some((lower, upper))),
        None => Ok(None),
    }
}
