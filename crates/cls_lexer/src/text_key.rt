//! What a text is looked up by.
ghost use Rattle.std.specs.Prelude.{◌≡◌, ℕ, ◌<◌, ◌≤◌, ◌+◌, List, length, string_bytes, IfOk};
ghost use Rattle.cls_lexer.specs.TextKeys.{number_with, text_number, IsKeyOf};

use cls_base::OutOfMemory;
use indexmap::Equivalent;
use std::alloc::Global;
use std::hash::{Hash, Hasher};

/// A text of fewer than 16 bytes as a number, which is compared in place, or a longer one as it is.
///
/// The digits of the number in base 256 are the bytes, the first of them the lowest, and then a 1. So two texts never have the
/// same number.
#[derive(Clone, Copy, PartialEq, Eq)]
pub(crate) enum TextKey<T> {
    Short(u128),
    Long(T),
}

impl<T: Hash> Hash for TextKey<T> {
    ghost use Rattle.cls_lexer.specs.TextKeys.{key_writes};
    ghost use Rattle.std.proofs.Common.{rules};

    ghost hash_input = { key_writes T.hash_input };

    ghost respects_eq = { Prim.search rules };

    fn hash<H: Hasher>(&self, state: &mut H) {
        match self {
            TextKey::Short(number) => number.hash(state),
            TextKey::Long(text) => text.hash(state),
        }
    }
}

impl<'a> Equivalent<TextKey<String>> for TextKey<&'a str> {
    ghost use Rattle.std.specs.Str.{bytes_eq};
    ghost use Rattle.std.specs.String.{string_bytes};
    ghost use Rattle.cls_lexer.specs.TextKeys.{keys_equal};
    ghost use Rattle.std.proofs.Common.{rules};

    ghost equivalent = { keys_equal (λ text own. bytes_eq text.now (string_bytes own)) };

    ghost respects_hash = { Prim.search rules };

    ghost respects_eq = { Prim.search rules };

    fn equivalent(&self, key: &TextKey<String>) -> bool {
        match (self, key) {
            (TextKey::Short(number), TextKey::Short(other)) => *number == *other,
            (TextKey::Long(text), TextKey::Long(own)) => *text == own.as_str(),
            _ => false,
        }
    }
}

/// The number of a short text as a key of its own, so that the search by it is compiled for numbers alone.
#[derive(Clone, Copy, PartialEq, Eq)]
pub(crate) struct ShortKey(pub(crate) u128);

impl Hash for ShortKey {
    ghost use Rattle.std.specs.Hash as fed;
    ghost use Rattle.std.proofs.Common.{rules};

    ghost hash_input = { λ k. fed.u128 k.0 };

    ghost respects_eq = { Prim.search rules };

    fn hash<H: Hasher>(&self, state: &mut H) {
        self.0.hash(state);
    }
}

impl Equivalent<TextKey<String>> for ShortKey {
    ghost use Rattle.cls_lexer.specs.TextKeys.{short_equal};
    ghost use Rattle.std.proofs.Common.{rules};

    ghost equivalent = { λ k own. short_equal k.0 own };

    ghost respects_hash = { Prim.search rules };

    ghost respects_eq = { Prim.search rules };

    fn equivalent(&self, key: &TextKey<String>) -> bool {
        match key {
            TextKey::Short(other) => self.0 == *other,
            TextKey::Long(_) => false,
        }
    }
}

impl TextKey<&str> {
    /// The same key, which owns its text. The only error is out of memory.
    pub(crate) fn into_owned(self, alloc: Global) -> Result<TextKey<String>, OutOfMemory>
        ensures { IfOk result (λ own.
            (text : List ℕ) → IsKeyOf (λ t. t.now) self.entry text → IsKeyOf string_bytes own text) }
    {
        match self {
            TextKey::Short(number) => Ok(TextKey::Short(number)),
            TextKey::Long(text) => Ok(TextKey::Long(String::from_str(alloc, text)?)),
        }
    }
}

/// The number of a short text, by halves of 64 bits.
#[tactic(auto, using(crate::proofs::TextKeys::number_halves))]
fn number_of_bytes(text: &[u8]) -> u128
    requires { length text.now < 16 }
    ensures { result ≡ text_number text.now }
{
    if text.len() < 8 {
        return number_with(1, text) as u128;
    }
    let low = number_with(0, &text[..8]) as u128;
    let high = number_with(1, &text[8..]) as u128;
    high * (1 << 64) + low
}

/// The number whose digits in base 256, the lowest first, are the bytes and then the last one.
#[tactic(auto, using(crate::proofs::TextKeys::number_step, crate::proofs::TextKeys::number_room))]
fn number_with(last: u64, bytes: &[u8]) -> u64
    requires last { last ≤ 1 }
    requires few { length bytes.now + last ≤ 8 }
    ensures { result ≡ number_with last bytes.now }
{
    let mut number = last;
    let mut place = bytes.len();
    while place > 0 {
        place -= 1;
        number = number * 256 + bytes[place] as u64;
    }
    number
}

/// The key by which a text is looked up. It borrows the text.
pub(crate) fn key_of(text: &str) -> TextKey<&str>
    ensures { IsKeyOf (λ own. own.now) result text.now }
{
    if text.len() < 16 {
        TextKey::Short(number_of_bytes(text.as_bytes()))
    } else {
        TextKey::Long(text)
    }
}
