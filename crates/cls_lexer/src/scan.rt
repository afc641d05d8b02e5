ghost use Rattle.std.specs.Prelude.{◌≡◌, ◌+◌, ◌<◌, ◌≤◌, ◌^◌, ℕ, List, length, map, slice_get, IfOk, IfSome, IsNone, OnOk, false, nat_le, if◌then◌else◌};
ghost use Rattle.std.specs.Option.{option_map};
ghost use Rattle.std.specs.List.{prefix_len};
ghost use Rattle.cls_base.specs.Limits.{max_name_bytes};
ghost use Rattle.cls_lexer.specs.Characters.{is_digit, is_name_byte, is_continuation};
ghost use Rattle.cls_lexer.specs.Tokens.{is_sign, token_at, tokens_of, located, byte_at};
ghost use Rattle.cls_lexer.specs.Words.{word_of, words, words_of};

use crate::characters::{is_blank, is_continuation, is_digit, is_name_byte, is_name_start};
use crate::token::{Token, TokenKind};
use cls_base::OutOfMemory;
use cls_base::limits::MAX_NAME_BYTES;
use std::alloc::Global;

/// How many tokens take up to a KiB, which most allocators hand out at once.
const QUICK_TOKENS: usize = 42;

/// The tokens of the line, which has fewer than 2^32 bytes, as a list of their own. See [`tokens_into`].
pub fn tokens<'a>(alloc: Global, line: &'a str) -> Result<Vec<Token<'a>>, OutOfMemory>
    requires { length line.now < 2 ^ 32 }
    ensures tokens { IfOk result (λ v. map located v.items ≡ tokens_of line.now) }
    ensures words { IfOk result (λ v. words v.items ≡ words_of line.now) }
{
    let mut list = Vec::new(alloc);
    tokens_into(line, &mut list)?;
    Ok(list)
}

/// Puts the tokens of the line, which has fewer than 2^32 bytes, in place of what the list has, in one pass.
///
/// From the left: a blank (space, tab or carriage return) is skipped, otherwise the longest token is taken. So each byte that
/// isn't blank lies in one token alone.
pub fn tokens_into<'a>(line: &'a str, list: &mut Vec<Token<'a>>) -> Result<(), OutOfMemory>
    requires { length line.now < 2 ^ 32 }
    ensures tokens { OnOk result (map located list.new.items ≡ tokens_of line.now) }
    ensures words { OnOk result (words list.new.items ≡ words_of line.now) }
{
    let bytes = line.as_bytes();
    list.clear();
    list.reserve(room(bytes.len()))?;
    let mut at = 0;
    while at < bytes.len() {
        let first = bytes[at];
        if is_blank(first) {
            at += 1;
        } else {
            let (kind, len) = token_at(first, &bytes[at + 1..]);
            list.push(Token {
                kind,
                text: &line[at..at + len],
                start: at as u32,
            })?;
            at += len;
        }
    }
    Ok(())
}

/// How many tokens a line of so many bytes gets room for at once.
fn room(bytes: usize) -> usize
    requires { bytes < 2 ^ 32 }
{
    if bytes <= 64 {
        bytes.min(QUICK_TOKENS)
    } else {
        bytes.min(bytes / 2 + 128)
    }
}

/// The first token of the line, which has fewer than 2^32 bytes, or None if it has only blanks. It takes no memory.
pub fn first_token<'a>(line: &'a str) -> Option<Token<'a>>
    requires { length line.now < 2 ^ 32 }
    ensures token { option_map located result ≡ slice_get (tokens_of line.now) 0 }
    ensures word { option_map word_of result ≡ slice_get (words_of line.now) 0 }
{
    let bytes = line.as_bytes();
    let mut at = 0;
    while at < bytes.len() {
        let first = bytes[at];
        if !is_blank(first) {
            let (kind, len) = token_at(first, &bytes[at + 1..]);
            return Some(Token {
                kind,
                text: &line[at..at + len],
                start: at as u32,
            });
        }
        at += 1;
    }
    None
}

/// The byte at which the token of this number begins, or the length of the line if it has no such token.
pub fn byte_at(line: &str, tokens: &[Token], place: usize) -> u32
    requires few { length line.now < 2 ^ 32 }
    requires tokens { map located tokens.now ≡ tokens_of line.now }
    ensures { result ≡ byte_at line.now place }
{
    match tokens.get(place) {
        Some(token) => token.start,
        None => line.len() as u32,
    }
}

/// The kind and the length of the token that the bytes begin with. Signs of one byte are told apart first.
// Always inlined, with `sign_of`: so one jump tells blanks, signs and other bytes apart.
#[inline(always)]
fn token_at(first: u8, rest: &[u8]) -> (TokenKind, usize)
    requires { length rest.now < 2 ^ 32 }
    ensures value { result ≡ token_at first rest.now }
    ensures not_empty { 1 ≤ result.1 }
    ensures within { result.1 ≤ 1 + length rest.now }
{
    match sign_of(first) {
        Some(kind) => (kind, 1),
        None => other_token_at(first, rest),
    }
}

/// The kind of the token that the byte is by itself, whatever follows it, or None if it is no such sign.
#[inline(always)]
#[tactic(auto, unfolding(crate::specs::Tokens::token_at))]
fn sign_of(byte: u8) -> Option<TokenKind>
    ensures sign { IfSome result (λ kind. (rest : List ℕ) → token_at byte rest ≡ (kind, 1)) }
    ensures other { IsNone result → is_sign byte ≡ false }
{
    match byte {
        b'&' => Some(TokenKind::And),
        b'*' => Some(TokenKind::Times),
        b'(' => Some(TokenKind::Open),
        b')' => Some(TokenKind::Close),
        b',' => Some(TokenKind::Comma),
        b'$' => Some(TokenKind::Dollar),
        b':' => Some(TokenKind::Colon),
        b'=' => Some(TokenKind::Equals),
        b'|' => Some(TokenKind::Bar),
        _ => None,
    }
}

/// The kind and the length of the token that the bytes begin with, where the first is no sign by itself.
#[tactic(auto, using(crate::proofs::TokenSteps::runs), unfolding(crate::specs::Tokens::token_at))]
fn other_token_at(first: u8, rest: &[u8]) -> (TokenKind, usize)
    requires few { length rest.now < 2 ^ 32 }
    requires other { is_sign first ≡ false }
    ensures value { result ≡ token_at first rest.now }
    ensures not_empty { 1 ≤ result.1 }
    ensures within { result.1 ≤ 1 + length rest.now }
{
    if is_name_start(first) {
        let len = 1 + name_bytes(rest);
        return (name_or_bad(len), len);
    }
    if is_digit(first) {
        return (TokenKind::Number, 1 + digits(rest));
    }
    match (first, rest.first()) {
        (b'-', Some(b'>')) => (TokenKind::To, 2),
        (b'<', Some(b'=')) => (TokenKind::AtMost, 2),
        _ => (TokenKind::Bad, 1 + continuations(rest)),
    }
}

fn name_or_bad(len: usize) -> TokenKind
    ensures { result ≡ (if nat_le len max_name_bytes then TokenKind.Name else TokenKind.Bad) }
{
    if len <= MAX_NAME_BYTES {
        TokenKind::Name
    } else {
        TokenKind::Bad
    }
}

fn digits(bytes: &[u8]) -> usize
    ensures { result ≡ prefix_len is_digit bytes.now }
{
    bytes.iter().take_while(|b| is_digit(**b)).count()
}

fn name_bytes(bytes: &[u8]) -> usize
    ensures { result ≡ prefix_len is_name_byte bytes.now }
{
    bytes.iter().take_while(|b| is_name_byte(**b)).count()
}

fn continuations(bytes: &[u8]) -> usize
    ensures { result ≡ prefix_len is_continuation bytes.now }
{
    bytes.iter().take_while(|b| is_continuation(**b)).count()
}
