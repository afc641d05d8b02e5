//! Tables of what the lines of a filter say of things by number.
ghost use Rattle.std.specs.Prelude.{◌≡◌, OnOk, OnErr, remove};
ghost use Rattle.cls_filter.specs.States.{IsState};
ghost use Rattle.cls_filter.specs.Tables.{first_said, said_at, with_room, with_said};
ghost use Rattle.cls_filter.specs.Lines.{is_named, is_pair_named, pair_said, with_pairs};

use cls_base::OutOfMemory;
use cls_base::limits::MAX_STATES;

/// What is said of a thing: nothing yet, or the state to which it leads, which may be none.
pub(crate) type Said = Option<Option<u8>>;

/// What is said of the thing with this number, nothing of those past the last.
pub(crate) fn said_at(said: &[Said], number: usize) -> Said
    ensures { result ≡ said_at said.now number }
{
    said.get(number).copied().unwrap_or(None)
}

/// The thing with this number leads there, if nothing was said of it before. If there is no memory, the table is as before.
pub(crate) fn put_said(
    said: &mut Vec<Said>,
    number: u32,
    state: Option<u8>,
) -> Result<(), OutOfMemory>
    ensures ok { OnOk result (said.new.items ≡ with_said said.old.items number state) }
    ensures err { OnErr result (said.new.items ≡ said.old.items) }
{
    let first = first_said(said_at(said.as_slice(), number as usize), state);
    make_room(said, number)?;
    said[number as usize] = first;
    Ok(())
}

/// Each pair of states that the line names leads there, if nothing was said of it before.
pub(crate) fn put_pairs(
    pairs: &mut [Said; 256],
    left: Option<u32>,
    right: Option<u32>,
    state: Option<u8>,
)
    ensures { pairs.new ≡ with_pairs left right state pairs.old }
{
    for number in 0..256 {
        let said = pairs[number as usize];
        pairs[number as usize] = pair_said(left, right, state, number, said);
    }
}

// The table has room for the thing with this number.
fn make_room(said: &mut Vec<Said>, number: u32) -> Result<(), OutOfMemory>
    ensures ok { OnOk result (said.new.items ≡ with_room said.old.items number) }
    ensures err { OnErr result (said.new.items ≡ said.old.items) }
{
    let count = number as usize + 1;
    let len = said.len();
    if count <= len {
        return Ok(());
    }
    said.resize(count, None)?;
    Ok(())
}

// What is said of a thing after a line that speaks of it.
fn first_said(said: Said, state: Option<u8>) -> Said
    ensures { result ≡ first_said said state }
{
    match said {
        None => Some(state),
        Some(earlier) => Some(earlier),
    }
}

// Whether the line names this state, or every state.
fn is_named(named: Option<u32>, state: u32) -> bool
    ensures { result ≡ is_named named state }
{
    match named {
        None => true,
        Some(named) => named == state,
    }
}

// Whether the line names both states of the pair.
fn is_pair_named(left: Option<u32>, right: Option<u32>, number: u32) -> bool
    ensures { result ≡ is_pair_named left right number }
{
    is_named(left, number / MAX_STATES) && is_named(right, number % MAX_STATES)
}

// What is said of the pair after the line.
fn pair_said(
    left: Option<u32>,
    right: Option<u32>,
    state: Option<u8>,
    number: u32,
    said: Said,
) -> Said
    ensures { result ≡ pair_said left right state number said }
{
    if is_pair_named(left, right, number) {
        first_said(said, state)
    } else {
        said
    }
}

/// The state as a table keeps it.
pub(crate) fn kept_state(state: Option<u32>) -> Option<u8>
    requires { IsState state }
    ensures { result ≡ state }
{
    match state {
        None => None,
        Some(state) => Some(state as u8),
    }
}

/// The state that a table keeps.
pub(crate) fn told_state(state: Option<u8>) -> Option<u32>
    ensures { result ≡ state }
{
    match state {
        None => None,
        Some(state) => Some(u32::from(state)),
    }
}

/// Takes out the thing with this number. Those behind it move down by one number.
pub(crate) fn take_out(said: &mut Vec<Said>, number: u32)
    ensures { said.new.items ≡ remove said.old.items number }
{
    let place = number as usize;
    let len = said.len();
    if place >= len {
        return;
    }
    said.remove(place);
}
