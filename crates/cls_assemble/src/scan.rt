ghost use Rattle.std.specs.Prelude.{◌≡◌, ◌+◌, ◌≤◌, min, length, map, option_map};
ghost use Rattle.std.specs.List.{prefix_len};
ghost use Rattle.cls_base.specs.Limits.{max_hole};
ghost use Rattle.cls_lexer.specs.Characters.{is_digit};
ghost use Rattle.cls_lexer.specs.Numerals.{number_value};
ghost use Rattle.cls_assemble.specs.Spelling.{is_plain};
ghost use Rattle.cls_assemble.specs.Fronts.{digit_count, after_opening, first_piece, capped};

use crate::piece::Piece;
use cls_base::limits::MAX_HOLE;

/// How many bytes at the front stand for themselves.
pub(crate) fn plain_count(bytes: &[u8]) -> usize
    ensures { result ≡ prefix_len is_plain bytes.now }
{
    bytes.iter().take_while(|byte| is_plain(**byte)).count()
}

/// The piece that the bytes begin with, and how many of them spell it, or None if they begin no piece. A hole of a
/// number over 16 has the number 17 here.
pub(crate) fn first_piece(bytes: &[u8]) -> Option<(Piece, usize)>
    ensures { result ≡ option_map (λ f. (capped f.0, f.1)) (first_piece bytes.now) }
{
    match bytes {
        [b'{', rest @ ..] => after_opening(rest),
        [b'}', b'}', ..] => Some((Piece::Byte(b'}'), 2)),
        [b'\\', b'n', ..] => Some((Piece::Byte(b'\n'), 2)),
        [b'\\', b'\\', ..] => Some((Piece::Byte(b'\\'), 2)),
        [b'}' | b'\\', ..] => None,
        [byte, ..] => Some((Piece::Byte(*byte), 1)),
        [] => None,
    }
}

fn after_opening(bytes: &[u8]) -> Option<(Piece, usize)>
    ensures { result ≡ option_map (λ f. (capped f.0, f.1)) (after_opening bytes.now) }
{
    if bytes.first() == Some(&b'{') {
        return Some((Piece::Byte(b'{'), 2));
    }
    let digits = digit_count(bytes);
    if digits > 0 && bytes.get(digits) == Some(&b'}') {
        return Some((Piece::Hole(hole_number(&bytes[..digits])), digits + 2));
    }
    None
}

fn is_plain(byte: u8) -> bool
    ensures { result ≡ is_plain byte }
{
    byte != b'{' && byte != b'}' && byte != b'\\'
}

fn digit_count(bytes: &[u8]) -> usize
    ensures count { result ≡ digit_count bytes.now }
    ensures within { result ≤ length bytes.now }
{
    bytes
        .iter()
        .take_while(|byte| byte.is_ascii_digit())
        .count()
}

/// The number that the digits spell, and 17 if it is over 16.
#[tactic(auto, using(crate::proofs::Numerals::numerals))]
fn hole_number(digits: &[u8]) -> u8
    requires { prefix_len is_digit digits.now ≡ length digits.now }
    ensures { result ≡ min (number_value digits.now) (max_hole + 1) }
{
    let mut number = 0;
    for digit in digits {
        number = (number * 10 + (*digit - b'0')).min(MAX_HOLE + 1);
    }
    number
}
