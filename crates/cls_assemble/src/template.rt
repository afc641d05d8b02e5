ghost use Rattle.std.specs.Prelude.{◌≡◌, ℕ, ◌+◌, ◌^◌, ◌<◌, ◌≤◌, [], ◌∷◌, ◌++◌, length, map, take, IfOk, OnOk, IfErr};
ghost use Rattle.std.specs.Str.{IsCharBoundary};
ghost use Rattle.cls_base.specs.Limits.{max_hole};
ghost use Rattle.cls_assemble.specs.declared.piece.Piece.TheVariants.{Byte, Hole};
ghost use Rattle.cls_assemble.specs.Spelling.{IsTemplate};
ghost use Rattle.cls_assemble.specs.Faults.{IsFaultOf};
ghost use Rattle.cls_assemble.specs.Steps.{IsReadUpTo};

use crate::counts::Counts;
use crate::fault::TemplateFault;
use crate::piece::Piece;
use crate::scan::{first_piece, plain_count};
use cls_base::OutOfMemory;
use cls_base::limits::MAX_HOLE;
use std::alloc::Global;
use std::marker::Model;
use std::mem;

/// A text of a template, and the hole behind it.
#[derive(Drop)]
pub(crate) struct Segment {
    pub(crate) text: String,
    pub(crate) number: u8,
    ghost least: { 1 ≤ number },
    ghost most: { number ≤ max_hole },
}

/// What stands for a component and its arguments: bytes, and holes with the numbers 1 to 16. It is seen as the list of
/// these pieces.
#[derive(Drop)]
pub struct Template {
    pub(crate) segments: Vec<Segment>,
    pub(crate) tail: String,
    pub(crate) counts: Counts,
}

impl Model for Template {
    ghost use Rattle.std.specs.Prelude.{List, string_bytes};
    ghost use Rattle.cls_assemble.specs.declared.piece.Piece.{Piece};
    ghost use Rattle.cls_assemble.specs.Segments.{pieces_in};
    ghost use Rattle.cls_assemble.specs.Counts.{AreCounted};

    ghost Value = { List Piece };

    ghost view = { λ t. pieces_in t.segments.items (string_bytes t.tail) };

    ghost invariant = { λ t. AreCounted t.counts t.segments.items };
}

impl Template {
    /// Reads a template. The bytes of a text stand for themselves, but for `{`, `}` and the backslash: `{{` and `}}`
    /// stand for a brace, `\n` for a line feed, `\\` for a backslash. `{1}` to `{16}` are holes, also with leading zeros.
    ///
    /// The error is the first fault from the left, with its byte: `BadHole` if a brace or a backslash begins none of
    /// these, `HoleZero` at a hole 0, and `HoleOver16` at a hole over 16. Otherwise it is out of memory.
    pub fn read(alloc: Global, text: &str) -> Result<Template, TemplateFault>
        requires { length text.now < 2 ^ 32 }
        ensures template { IfOk result (λ template. IsTemplate text.now template) }
        ensures fault { IfErr result (λ fault. IsFaultOf text.now fault) }
    {
        let mut template = Template::new(alloc);
        let mut at = 0;
        while at < text.len() {
            at = template.read_on(alloc, text, at)?;
        }
        Ok(template)
    }

    /// The template that stands for a name, whatever its bytes. It has no hole.
    #[tactic(auto, using(crate::proofs::Segments::segments))]
    pub fn of_name(alloc: Global, name: &str) -> Result<Template, OutOfMemory>
        ensures { IfOk result (λ template. template ≡ map Byte name.now) }
    {
        let mut template = Template::new(alloc);
        template.tail.push_str(name)?;
        Ok(template)
    }

    fn new(alloc: Global) -> Template
        ensures { result ≡ [] }
    {
        Template {
            segments: Vec::new(alloc),
            tail: String::new(alloc),
            counts: Counts::new(),
        }
    }

    /// Reads the bytes from this one on that stand for themselves, or otherwise one piece, and answers the byte behind.
    fn read_on(&mut self, alloc: Global, text: &str, at: usize) -> Result<usize, TemplateFault>
        requires short { length text.now < 2 ^ 32 }
        requires within { at < length text.now }
        requires so_far { IsReadUpTo text.now self.old at }
        ensures on { IfOk result (λ next. (at < next) × (next ≤ length text.now)) }
        ensures read { IfOk result (λ next. IsReadUpTo text.now self.new next) }
        ensures fault { IfErr result (λ fault. IsFaultOf text.now fault) }
    {
        let rest = &text.as_bytes()[at..];
        let plain = plain_count(rest);
        if plain > 0 {
            self.put_text(&text[at..at + plain])?;
            return Ok(at + plain);
        }
        match first_piece(rest) {
            None => Err(TemplateFault::BadHole(at as u32)),
            Some((Piece::Byte(byte), count)) => {
                self.put_byte(byte)?;
                Ok(at + count)
            }
            Some((Piece::Hole(0), _)) => Err(TemplateFault::HoleZero(at as u32)),
            Some((Piece::Hole(number), count)) => {
                if number > MAX_HOLE {
                    return Err(TemplateFault::HoleOver16(at as u32));
                }
                self.put_hole(alloc, number)?;
                Ok(at + count)
            }
        }
    }

    #[tactic(auto, using(crate::proofs::Segments::segments))]
    fn put_text(&mut self, text: &str) -> Result<(), OutOfMemory>
        ensures { OnOk result (self.new ≡ self.old ++ map Byte text.now) }
    {
        self.tail.push_str(text)?;
        Ok(())
    }

    #[tactic(auto, using(crate::proofs::Segments::segments))]
    fn put_byte(&mut self, byte: u8) -> Result<(), OutOfMemory>
        requires { byte < 128 }
        ensures { OnOk result (self.new ≡ self.old ++ Byte byte ∷ []) }
    {
        self.tail.push(char::from(byte))?;
        Ok(())
    }

    #[tactic(auto, using(crate::proofs::Segments::segments))]
    fn put_hole(&mut self, alloc: Global, number: u8) -> Result<(), OutOfMemory>
        requires least { 1 ≤ number }
        requires most { number ≤ max_hole }
        ensures { OnOk result (self.new ≡ self.old ++ Hole number ∷ []) }
    {
        let text = mem::replace(&mut self.tail, String::new(alloc));
        let bytes = text.as_str().len();
        self.segments.push(Segment { text, number })?;
        self.counts.add(bytes, number);
        Ok(())
    }
}
