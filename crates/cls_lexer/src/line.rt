ghost use Rattle.std.specs.Prelude.{◌≡◌, ℕ, ◌<◌, ◌≤◌, ◌↔◌, List, length, map, Ok, Err, IsOk, IfOk, IfSome, IsNone, IsUtf8};
ghost use Rattle.cls_base.specs.Limits.{max_line_bytes};
ghost use Rattle.cls_lexer.specs.Lines.{without_return};
ghost use Rattle.cls_lexer.specs.Skipped.{first_byte, says_nothing, IsText, IsSkipped};
ghost use Rattle.cls_lexer.specs.Tokens.{tokens_of, located};
ghost use Rattle.cls_lexer.specs.Words.{words, words_of};
ghost use Rattle.std.specs.Cow.{cow_slice_items};

use crate::characters::is_blank;
use crate::scan::{tokens, tokens_into};
use crate::token::Token;
use cls_base::OutOfMemory;
use cls_base::limits::MAX_LINE_BYTES;
use std::alloc::Global;
use std::borrow::{CowSlice, CowStr};
use std::marker::Model;
use thiserror::Error;

/// Why a line can't be read as a text.
#[derive(Clone, Copy, Debug, PartialEq, Eq, Error)]
pub enum TextFault {
    /// The line has more than [`MAX_LINE_BYTES`] bytes.
    #[error("the line is longer than 65,536 bytes")]
    TooLong,
    /// The line isn't too long, and its bytes aren't UTF-8.
    #[error("the line is not UTF-8")]
    NotUtf8,
}

/// One line of a text, whatever its bytes, which it borrows or owns. It is seen as these bytes, without the line's ending.
///
/// A line ends with a line feed, or with the text if at least one byte stands after the last line feed. One
/// carriage return directly before the line feed, or before the end of the text, belongs to the ending.
#[derive(Drop)]
pub struct Line<'a> {
    content: Content<'a>,
}

/// The bytes of a line: a text if they can be read as one.
#[derive(Drop)]
enum Content<'a> {
    Text(CowStr<'a, Global>),
    Unread(CowSlice<'a, u8, Global>),
}

impl<'a> Model for Line<'a> {
    ghost use Rattle.std.specs.Prelude.{ℕ, List};
    ghost use Rattle.cls_lexer.specs.Contents.{bytes_of, TellsText};

    ghost Value = { List ℕ };

    ghost view = { λ l. bytes_of l.content };

    ghost invariant = { λ l. TellsText l.content };
}

impl<'a> Line<'a> {
    /// The line of these bytes.
    pub fn new(bytes: &'a [u8]) -> Line<'a>
        ensures { result ≡ bytes.now }
    {
        if bytes.len() > MAX_LINE_BYTES {
            return Line {
                content: Content::Unread(CowSlice::Borrowed(bytes)),
            };
        }
        match str::from_utf8(bytes) {
            Ok(text) => Line {
                content: Content::Text(CowStr::Borrowed(text)),
            },
            Err(_) => Line {
                content: Content::Unread(CowSlice::Borrowed(bytes)),
            },
        }
    }

    /// The line of this text, whose bytes needn't be tested again.
    pub fn from_text(text: &'a str) -> Line<'a>
        ensures { result ≡ text.now }
    {
        if text.len() > MAX_LINE_BYTES {
            return Line {
                content: Content::Unread(CowSlice::Borrowed(text.as_bytes())),
            };
        }
        Line {
            content: Content::Text(CowStr::Borrowed(text)),
        }
    }

    /// The line that these bytes are, of which one carriage return at the end belongs to the ending.
    pub(crate) fn ended(bytes: &'a [u8]) -> Line<'a>
        ensures { result ≡ without_return bytes.now }
    {
        let count = bytes.len();
        if count > 0 && bytes[count - 1] == b'\r' {
            return Line::new(&bytes[..count - 1]);
        }
        Line::new(bytes)
    }

    /// The line that this text is, of which one carriage return at the end belongs to the ending.
    pub(crate) fn ended_text(text: &'a str) -> Line<'a>
        ensures { result ≡ without_return text.now }
    {
        let count = text.len();
        if count > 0 && text.as_bytes()[count - 1] == b'\r' {
            return Line::from_text(&text[..count - 1]);
        }
        Line::from_text(text)
    }

    /// The line that these bytes are, of which one carriage return at the end belongs to the ending.
    pub(crate) fn ended_owned(mut bytes: Vec<u8>) -> Line<'static>
        ensures { result ≡ without_return bytes.items }
    {
        let count = bytes.len();
        if count > 0 && bytes[count - 1] == b'\r' {
            bytes.truncate(count - 1);
        }
        Line::of_bytes(bytes)
    }

    /// The line of these bytes, which it owns.
    fn of_bytes(bytes: Vec<u8>) -> Line<'static>
        ensures { result ≡ bytes.items }
    {
        if bytes.len() > MAX_LINE_BYTES {
            return Line {
                content: Content::Unread(CowSlice::Owned(bytes)),
            };
        }
        match String::from_utf8(bytes) {
            Ok(text) => Line {
                content: Content::Text(CowStr::Owned(text)),
            },
            Err(error) => Line {
                content: Content::Unread(CowSlice::Owned(error.into_bytes())),
            },
        }
    }

    /// The same line, which owns its bytes.
    pub fn into_owned(self, alloc: Global) -> Result<Line<'static>, OutOfMemory>
        ensures { IfOk result (λ line. line ≡ self.entry) }
    {
        let content = match self.content {
            Content::Text(text) => Content::Text(CowStr::Owned(text.into_owned(alloc)?)),
            Content::Unread(bytes) => Content::Unread(CowSlice::Owned(bytes.into_owned(alloc)?)),
        };
        Ok(Line { content })
    }

    /// The bytes of the line.
    pub fn as_bytes(&self) -> &[u8]
        ensures { result.now ≡ self.now }
    {
        match &self.content {
            Content::Text(text) => text.as_bytes(),
            Content::Unread(bytes) => bytes.as_slice(),
        }
    }

    /// The first byte that isn't blank.
    pub fn first_byte(&self) -> Option<u8>
        ensures { result ≡ first_byte self.now }
    {
        first_not_blank(self.as_bytes())
    }

    /// The line as a text.
    ///
    /// The error is `TooLong` for a line of more than [`MAX_LINE_BYTES`] bytes, otherwise `NotUtf8` for one that isn't
    /// UTF-8.
    pub fn text(&self) -> Result<&str, TextFault>
        ensures same { IfOk result (λ text. text.now ≡ self.now) }
        ensures ok { IsOk result ↔ IsText self.now }
        ensures too_long { (result ≡ Err TextFault.TooLong) ↔ (max_line_bytes < length self.now) }
        ensures not_utf8 { (result ≡ Err TextFault.NotUtf8)
            ↔ ((length self.now ≤ max_line_bytes) × ¬ IsUtf8 self.now) }
    {
        match &self.content {
            Content::Text(text) => Ok(text.as_str()),
            Content::Unread(bytes) if bytes.len() > MAX_LINE_BYTES => Err(TextFault::TooLong),
            Content::Unread(_) => Err(TextFault::NotUtf8),
        }
    }

    /// The tokens of a line that is a text. If the line borrows its bytes, they stand in `room` in place of what it has, so that
    /// lines of one text need one list of tokens; otherwise in a list of their own.
    pub fn tokens<'r, 'l: 'r>(
        &'l self,
        alloc: Global,
        room: &'r mut Vec<Token<'a>>,
    ) -> Result<CowSlice<'r, Token<'l>, Global>, OutOfMemory>
        requires { IsText self.now }
        ensures tokens { IfOk result (λ list. map located (cow_slice_items list) ≡ tokens_of self.now) }
        ensures words { IfOk result (λ list. words (cow_slice_items list) ≡ words_of self.now) }
    {
        match &self.content {
            Content::Text(CowStr::Borrowed(text)) => {
                tokens_into(text, room)?;
                Ok(CowSlice::Borrowed(room.as_slice()))
            }
            Content::Text(CowStr::Owned(text)) => Ok(CowSlice::Owned(tokens(
                alloc,
                text.as_str(),
            )?)),
            Content::Unread(_) => unreachable!(),
        }
    }

    /// The line as a text, or None if it is skipped: it can be read, and has only blanks, or its first byte that isn't blank
    /// is `#`. The errors are those of [`text`](Line::text).
    pub fn content(&self) -> Result<Option<&str>, TextFault>
        ensures same { IfOk result (λ content. IfSome content (λ text. text.now ≡ self.now)) }
        ensures skipped { IfOk result (λ content. IsNone content ↔ IsSkipped self.now) }
        ensures ok { IsOk result ↔ IsText self.now }
        ensures too_long { (result ≡ Err TextFault.TooLong) ↔ (max_line_bytes < length self.now) }
        ensures not_utf8 { (result ≡ Err TextFault.NotUtf8)
            ↔ ((length self.now ≤ max_line_bytes) × ¬ IsUtf8 self.now) }
    {
        let text = self.text()?;
        if says_nothing(self.as_bytes()) {
            return Ok(None);
        }
        Ok(Some(text))
    }
}

fn says_nothing(bytes: &[u8]) -> bool
    ensures { result ≡ says_nothing bytes.now }
{
    match first_not_blank(bytes) {
        Some(first) => first == b'#',
        None => true,
    }
}

fn first_not_blank(bytes: &[u8]) -> Option<u8>
    ensures { result ≡ first_byte bytes.now }
{
    bytes.iter().copied().find(|byte| !is_blank(*byte))
}
