ghost use Rattle.std.specs.Prelude.{◌≡◌, ℕ, ◌↔◌, List, [], ◌++◌, IsNone, IfNone, IfSome, OnSome, IfOk, OnErr, option_to_list};
ghost use Rattle.cls_lexer.specs.Lines.{lines_of, without_return, HasNoFeed, CutsLine};

use crate::line::Line;
use crate::piece::Piece;
use cls_base::OutOfMemory;
use std::alloc::Global;
use std::marker::Model;
use std::mem;

/// Cuts a text that comes in pieces into its lines. It is seen as the bytes that came since the last line feed.
#[derive(Drop)]
pub struct LineReader {
    bytes: Vec<u8>,
}

impl Model for LineReader {
    ghost Value = { List ℕ };

    ghost view = { λ r. r.bytes.items };

    ghost invariant = { λ r. HasNoFeed r.bytes.items };
}

impl LineReader {
    /// The reader at the beginning of a text. It takes no memory.
    pub fn new(alloc: Global) -> LineReader
        ensures { result ≡ [] }
    {
        LineReader {
            bytes: Vec::new(alloc),
        }
    }

    /// Takes the bytes of the piece up to and with its first line feed, and gives the line that this ends beside the
    /// rest of the piece.
    ///
    /// A line that stands in the piece is borrowed from it. If the piece has no line feed, all of it is taken and no line is
    /// given. After an error the reader is as before.
    pub fn take<'a>(
        &mut self,
        alloc: Global,
        piece: Piece<'a>,
    ) -> Result<(Option<Line<'a>>, Piece<'a>), OutOfMemory>
        ensures line { IfOk result (λ r. IfSome r.0 (λ line. CutsLine (self.old ++ piece.entry) line r.1)) }
        ensures fresh { IfOk result (λ r. OnSome r.0 (self.new ≡ [])) }

        // Without a line feed the piece is held.
        ensures none { IfOk result (λ r. IfNone r.0 (HasNoFeed piece.entry)) }
        ensures held { IfOk result (λ r. IfNone r.0 (self.new ≡ self.old ++ piece.entry)) }
        ensures nothing_left { IfOk result (λ r. IfNone r.0 (r.1 ≡ [])) }

        ensures no_feed { HasNoFeed self.new }
        ensures err { OnErr result (self.new ≡ self.old) }
    {
        let Some(place) = piece.first_feed() else {
            self.bytes.extend_from_slice(piece.as_bytes())?;
            return Ok((None, Piece::empty()));
        };
        if self.bytes.is_empty() {
            let (line, rest) = piece.cut(place);
            return Ok((Some(line), rest));
        }
        self.bytes.extend_from_slice(&piece.as_bytes()[..place])?;
        let (_, rest) = piece.cut(place);
        let bytes = mem::replace(&mut self.bytes, Vec::new(alloc));
        Ok((Some(Line::ended_owned(bytes)), rest))
    }

    /// Ends the text, and gives the last line if a byte stands after the last line feed. It takes no memory.
    pub fn finish(self) -> Option<Line<'static>>
        ensures none { IsNone result ↔ (self ≡ []) }
        ensures line { IfSome result (λ line. line ≡ without_return self) }
        ensures lines { option_to_list result ≡ lines_of self }
    {
        let LineReader { bytes } = self;
        if bytes.is_empty() {
            None
        } else {
            Some(Line::ended_owned(bytes))
        }
    }
}
