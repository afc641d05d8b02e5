ghost use Rattle.std.specs.Prelude.{◌≡◌, ℕ, ◌+◌, ◌==◌, [], Some, take, drop, position};
ghost use Rattle.cls_lexer.specs.Lines.{without_return};

use crate::line::Line;
use memchr::memchr;
use simdutf8::basic::from_utf8;
use std::marker::Model;

/// Bytes of a text that came together. It is seen as these bytes.
///
/// Where they are UTF-8, as is tested once, the lines that stand in them aren't tested each by itself.
#[derive(Drop)]
pub struct Piece<'a> {
    known: Known<'a>,
}

/// The bytes of a piece: a text if they are one.
#[derive(Clone, Copy)]
enum Known<'a> {
    Text(&'a str),
    Unread(&'a [u8]),
}

impl<'a> Model for Piece<'a> {
    ghost use Rattle.std.specs.Prelude.{ℕ, List};
    ghost use Rattle.cls_lexer.specs.Contents.{known_bytes};

    ghost Value = { List ℕ };

    ghost view = { λ p. known_bytes p.known };
}

impl<'a> Piece<'a> {
    /// The piece of these bytes.
    pub fn new(bytes: &'a [u8]) -> Piece<'a>
        ensures { result ≡ bytes.now }
    {
        let known = match from_utf8(bytes) {
            Ok(text) => Known::Text(text),
            Err(_) => Known::Unread(bytes),
        };
        Piece { known }
    }

    /// The piece without a byte.
    pub(crate) fn empty() -> Piece<'a>
        ensures { result ≡ [] }
    {
        Piece {
            known: Known::Text(""),
        }
    }

    /// The bytes.
    pub fn as_bytes(&self) -> &'a [u8]
        ensures { result.now ≡ self.now }
    {
        match self.known {
            Known::Text(text) => text.as_bytes(),
            Known::Unread(bytes) => bytes,
        }
    }

    /// The place of the first line feed.
    pub(crate) fn first_feed(&self) -> Option<usize>
        ensures { result ≡ position (λ b. b == 10) self.now }
    {
        memchr(b'\n', self.as_bytes())
    }

    /// The line in front of the first line feed, which is at this place, and the piece after it.
    pub(crate) fn cut(self, place: usize) -> (Line<'a>, Piece<'a>)
        requires { position (λ b. b == 10) self ≡ Some place }
        ensures line { result.0 ≡ without_return (take place self.entry) }
        ensures rest { result.1 ≡ drop (place + 1) self.entry }
    {
        match self.known {
            Known::Text(text) => {
                let (front, feed) = (&text[..place], &text[place..]);
                let known = Known::Text(&feed[1..]);
                (Line::ended_text(front), Piece { known })
            }
            Known::Unread(bytes) => {
                let (front, rest) = (&bytes[..place], &bytes[place + 1..]);
                let known = Known::Unread(rest);
                (Line::ended(front), Piece { known })
            }
        }
    }
}
