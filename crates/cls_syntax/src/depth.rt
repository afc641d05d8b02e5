ghost use Rattle.std.specs.Prelude.{◌≡◌, ◌+◌, ◌<◌, ◌^◌, ◌↔◌, IsTrue};
ghost use Rattle.cls_base.specs.Limits.{max_type_depth};
ghost use Rattle.cls_lexer.specs.Words.{words};
ghost use Rattle.cls_syntax.specs.Depths.{open_after, most_open};

use crate::sort::{Sort, sort_of};
use cls_base::limits::MAX_TYPE_DEPTH;
use cls_lexer::Token;

/// Whether more than [`MAX_TYPE_DEPTH`] parentheses are open at once. One that closes where none is open doesn't count.
///
/// So few tokens can't open more, and aren't gone over.
#[tactic(auto, using(crate::proofs::Openings::few_open))]
pub fn is_too_deep(tokens: &[Token]) -> bool
    ensures { IsTrue result ↔ (max_type_depth < most_open 0 0 (words tokens.now)) }
{
    tokens.len() as u64 > MAX_TYPE_DEPTH && deepest(tokens) as u64 > MAX_TYPE_DEPTH
}

/// The most parentheses that are open at once.
fn deepest(tokens: &[Token]) -> usize
    ensures { result ≡ most_open 0 0 (words tokens.now) }
{
    let mut open = 0;
    let mut most = 0;
    for token in tokens {
        open = open_after(open, sort_of(token));
        most = open.max(most);
    }
    most
}

fn open_after(count: usize, sort: Sort) -> usize
    requires { count + 1 < 2 ^ 64 }
    ensures { result ≡ open_after count sort }
{
    match sort {
        Sort::Open => count + 1,
        Sort::Close => count.saturating_sub(1),
        _ => count,
    }
}
