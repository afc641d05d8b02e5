ghost use Rattle.std.specs.Prelude.{◌<◌};

use crate::list_library::{DESCENDING_LISTS, SORTED_TEXTS};
use crate::outside::{Outside, SIX_TERMS, TWO_COMPONENTS, outcome};
use cls_base::{MemorySink, Numbers, OpenGate, SureSink, SureSource};
use cls_session::{Status, run};
use std::alloc::Global;
use std::process::Abort;
use std::sync::Wait;
use std::test::Fail;
use std::thread::Threads;

/// What is written if the words ask for nothing.
const USAGE: &str =
    "usage: clsynth [--workers N] [--max-goals N] [--max-rules N] [--pool N] [generate N]\n";

/// Words and inputs, the one reply to them, and the status.
const REPLIES: [(&[&str], &[u8], &str, Status); 5] = [
    (&[], TWO_COMPONENTS, SIX_TERMS, Status::Done),
    (&[], b"wrong", "refused 1 directive\n", Status::Refused),
    (&[], b"", "refused 0 no-end\n", Status::Refused),
    (&["--"], b"", USAGE, Status::Usage),
    (
        &["--pool", "5"],
        TWO_COMPONENTS,
        "error too-many-terms\n",
        Status::Done,
    ),
];

/// Two queries, the first whole with 51 bytes and the second with 75.
const TWO_QUERIES: &[u8] =
    b"comp x : A\ncomp y : B\nend\nlist omega max 2 take 10\nlist omega max 1 take 1\n";

const SEVEN_TERMS: &str =
    "term x\nterm y\nterm x(x)\nterm x(y)\nterm y(x)\nterm y(y)\ndone\nterm x\nmore\n";

/// An input that ends at once.
const NOTHING: &[u8] = b"";

/// More bytes than is written for such an input, or for one of four short lines.
const ROOM: usize = 1_000;

#[test]
fn no_read_can_fail(rt: HostRuntime) -> Result<(), Fail> {
    let alloc = rt.alloc();
    let mut source = SureSource::new(TWO_COMPONENTS.to_vec(alloc)?);
    let none = Numbers::new(Vec::new(alloc));
    let mut sink = MemorySink::new(alloc, ROOM, ROOM, none)?;
    let status = run(&rt, alloc, &[], &mut source, &mut sink, &OpenGate);
    assert_eq!(rt; str::from_utf8(sink.held())?, SIX_TERMS);
    assert_eq!(rt; status, Status::Done);
    Ok(())
}

#[test]
fn no_write_can_fail(rt: HostRuntime) -> Result<(), Fail> {
    let mut source = SureSource::new(NOTHING.to_vec(rt.alloc())?);
    let mut sink = SureSink::new(rt.alloc(), ROOM)?;
    let status = run(&rt, rt.alloc(), &[], &mut source, &mut sink, &OpenGate);
    assert_eq!(rt; str::from_utf8(sink.held())?, "refused 0 no-end\n");
    assert_eq!(rt; status, Status::Refused);
    Ok(())
}

/// Asserts what is written and the status if the read of this place fails.
fn assert_read_fails<R: Abort + Threads + Wait + Sync>(
    rt: &R,
    alloc: Global,
    input: &[u8],
    chunk: usize,
    place: u32,
    ending: (&str, Status),
) -> Result<(), Fail>
    requires { 0 < chunk }
{
    let (output, expected) = ending;
    let outside = Outside {
        chunk,
        failing_reads: &[place],
        failing_writes: &[],
    };
    let (status, written) = outcome(rt, alloc, &[], input, &outside)?;
    assert_eq!(rt; status, expected, "read {place} of {chunk} bytes fails");
    assert_eq!(rt;
        written.as_str(),
        output,
        "read {place} of {chunk} bytes fails"
    );
    Ok(())
}

#[test]
fn a_read_fails(rt: HostRuntime) -> Result<(), Fail> {
    // At 7 bytes a read the eighth takes the end of the first query, the eleventh takes the last bytes, and the twelfth
    // finds the end.
    for (chunk, first, last, ending) in [
        (16, 2, 2, ("", Status::ReadFault)),
        (7, 1, 8, ("", Status::ReadFault)),
        (7, 9, 11, (SIX_TERMS, Status::ReadFault)),
        (7, 12, 12, (SEVEN_TERMS, Status::ReadFault)),
        (7, 13, 13, (SEVEN_TERMS, Status::Done)),
    ] {
        for place in first..=last {
            assert_read_fails(&rt, rt.alloc(), TWO_QUERIES, chunk, place, ending)?;
        }
    }
    Ok(())
}

#[test]
fn a_read_of_the_list_library_fails(rt: HostRuntime) -> Result<(), Fail> {
    let input = DESCENDING_LISTS.as_bytes();
    // At 64 bytes a read the 25th takes the last bytes, and the 26th finds the end.
    for place in 1..=25 {
        assert_read_fails(&rt, rt.alloc(), input, 64, place, ("", Status::ReadFault))?;
    }
    let failed = (SORTED_TEXTS, Status::ReadFault);
    assert_read_fails(&rt, rt.alloc(), input, 64, 26, failed)?;
    let done = (SORTED_TEXTS, Status::Done);
    assert_read_fails(&rt, rt.alloc(), input, 64, 27, done)
}

/// Asserts that all before the failed write is written, if it is of this place, and all if there is no such write.
fn assert_write_fails<R: Abort + Threads + Wait + Sync>(
    rt: &R,
    alloc: Global,
    run: (&[&str], &[u8], &str, Status),
    chunk: usize,
    place: u32,
) -> Result<(), Fail>
    requires { 0 < chunk }
{
    let (words, input, output, expected) = run;
    let outside = Outside {
        chunk,
        failing_reads: &[],
        failing_writes: &[place],
    };
    let (status, written) = outcome(rt, alloc, words, input, &outside)?;
    let front = chunk.saturating_mul(place.saturating_sub(1) as usize);
    let fails = front < output.len();
    let status_then = if fails { Status::WriteFault } else { expected };
    assert!(rt;
        output.starts_with(written.as_str()),
        "write {place} of {output} fails"
    );
    assert_eq!(rt;
        written.len(),
        front.min(output.len()),
        "write {place} of {output} fails"
    );
    assert_eq!(rt; status, status_then, "write {place} of {output} fails");
    Ok(())
}

#[test]
fn a_write_fails(rt: HostRuntime) -> Result<(), Fail> {
    for run in REPLIES {
        let writes = run.2.len().div_ceil(5) as u32;
        for place in 1..=writes.saturating_add(1) {
            assert_write_fails(&rt, rt.alloc(), run, 5, place)?;
        }
    }
    Ok(())
}

#[test]
fn a_write_of_sorted_texts_fails(rt: HostRuntime) -> Result<(), Fail> {
    let input = DESCENDING_LISTS.as_bytes();
    let run: (&[&str], &[u8], &str, Status) = (&[], input, SORTED_TEXTS, Status::Done);
    // They are twelve writes of 16 bytes.
    for place in 1..=13 {
        assert_write_fails(&rt, rt.alloc(), run, 16, place)?;
    }
    Ok(())
}
