//! Counts types that stand in a line with bars between them. No type has a bar in it, so there is one type more than
//! bars.
ghost use Rattle.std.specs.Prelude.{◌≡◌, ◌↔◌, ◌≤◌, ◌<◌, ◌+◌, ◌^◌, IsTrue};
ghost use Rattle.cls_query.specs.QueryForms.{max_batch_types};
ghost use Rattle.cls_query.specs.TypeCounts.{bars_from, counted};

use crate::query::MAX_BATCH_TYPES;
use cls_lexer::{Token, TokenKind};

/// So many, and one more behind a bar.
fn counted(count: usize, kind: TokenKind) -> usize
    requires { count + 1 < 2 ^ 64 }
    ensures { result ≡ counted count kind }
{
    match kind {
        TokenKind::Bar => count + 1,
        _ => count,
    }
}

/// The number of bars among the tokens.
fn count_bars(tokens: &[Token]) -> usize
    ensures { result ≡ bars_from 0 tokens.now }
{
    let mut count = 0;
    for token in tokens {
        count = counted(count, token.kind);
    }
    count
}

/// Whether the tokens, which are those of a batch, have more types than one may have.
pub(crate) fn has_too_many_types(tokens: &[Token]) -> bool
    ensures { IsTrue result ↔ (max_batch_types ≤ bars_from 0 tokens.now) }
{
    count_bars(tokens) >= MAX_BATCH_TYPES
}
