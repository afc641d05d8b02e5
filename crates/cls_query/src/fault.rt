ghost use Rattle.std.specs.Prelude.{◌≡◌, ◌++◌, codes, decimal, string_bytes, Some, OnOk};
ghost use Rattle.std.specs.Option.{option_map};
ghost use Rattle.cls_query.specs.declared.fault.LineFault.TheVariants as faults;
ghost use Rattle.cls_query.specs.ReadQueries.{fault_words};

use cls_base::OutOfMemory;
use itoa::Buffer;

/// Why a line is no query. The first cause is answered, in the order in which they are listed.
#[derive(Clone, Copy, Debug)]
pub enum LineFault<'a> {
    /// The line has more than [`MAX_LINE_BYTES`](cls_base::limits::MAX_LINE_BYTES) bytes.
    TooLong,
    /// Its bytes aren't UTF-8.
    NotUtf8,
    /// More than [`MAX_TYPE_DEPTH`](cls_base::limits::MAX_TYPE_DEPTH) parentheses are open at once.
    TooDeep,
    /// No query goes on with the token at this byte or, at the line's end, none ends there.
    Unexpected(u32),
    /// The token at this byte is `omega`, where a name could stand.
    ReservedName(u32),
    /// A type has more than [`MAX_TYPE_NODES`](cls_base::limits::MAX_TYPE_NODES) nodes.
    TooManyNodes,
    /// The first `$` of the line is at this byte.
    Variable(u32),
    /// A number of a listing is 0, or greater than [`MAX_TERM_SIZE`](cls_base::limits::MAX_TERM_SIZE) behind `max` or
    /// [`MAX_PAGE_TERMS`](cls_base::limits::MAX_PAGE_TERMS) behind `take`. Or a batch has more than
    /// [`MAX_BATCH_TYPES`](crate::MAX_BATCH_TYPES) types.
    OutOfRange,
    /// There is no component of this name, whose paths are asked for or which is to be dropped, or no filter of this
    /// name.
    UnknownName(&'a str),
    /// There is a component of this name, which is to be added.
    Duplicate(&'a str),
    /// The name at this byte is the first one in a term that is no component.
    UnknownInTerm(u32),
    /// No memory was found.
    OutOfMemory,
}

impl From<OutOfMemory> for LineFault<'_> {
    ghost from_gives = { λ _ fault. fault ≡ faults.OutOfMemory };

    fn from(_: OutOfMemory) -> Self {
        LineFault::OutOfMemory
    }
}

impl LineFault<'_> {
    /// Writes `error ` and the words of the fault at the end of the text, as `error syntax 12`. The only error is out
    /// of memory, which is also the answer where that is the fault.
    pub fn write_to(&self, text: &mut String) -> Result<(), OutOfMemory>
        ensures { OnOk result (Some (string_bytes text.new)
            ≡ option_map (λ words. string_bytes text.old ++ (codes "error " ++ words)) (fault_words self.now)) }
    {
        text.push_str("error ")?;
        match self {
            LineFault::TooLong => text.push_str("long")?,
            LineFault::NotUtf8 => text.push_str("utf8")?,
            LineFault::TooDeep => text.push_str("deep")?,
            LineFault::Unexpected(byte) => write_numbered(text, "syntax ", *byte)?,
            LineFault::ReservedName(byte) => write_numbered(text, "reserved ", *byte)?,
            LineFault::TooManyNodes => text.push_str("nodes")?,
            LineFault::Variable(byte) => write_numbered(text, "variable ", *byte)?,
            LineFault::OutOfRange => text.push_str("number")?,
            LineFault::UnknownName(name) => write_named(text, "unknown ", name)?,
            LineFault::Duplicate(name) => write_named(text, "duplicate ", name)?,
            LineFault::UnknownInTerm(byte) => write_numbered(text, "token ", *byte)?,
            LineFault::OutOfMemory => return Err(OutOfMemory),
        }
        Ok(())
    }
}

/// Writes the word and the number at the end.
fn write_numbered(text: &mut String, word: &str, number: u32) -> Result<(), OutOfMemory>
    ensures { OnOk result (string_bytes text.new ≡ string_bytes text.old ++ (word.now ++ decimal number)) }
{
    let mut buffer = Buffer::new();
    text.push_str(word)?;
    text.push_str(buffer.format(number))?;
    Ok(())
}

/// Writes the word and the name at the end.
fn write_named(text: &mut String, word: &str, name: &str) -> Result<(), OutOfMemory>
    ensures { OnOk result (string_bytes text.new ≡ string_bytes text.old ++ (word.now ++ name.now)) }
{
    text.push_str(word)?;
    text.push_str(name)?;
    Ok(())
}
