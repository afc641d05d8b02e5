ghost use Rattle.std.specs.Prelude.{◌≡◌, ◌<◌, None};

use crate::outside::{Outside, SIX_TERMS, TWO_COMPONENTS, WHOLE, outcome};
use cls_base::{Failed, MemorySource, Numbers, OpenGate, OutOfMemory, Sink};
use cls_session::{Status, run};
use std::alloc::Global;
use std::process::Abort;
use std::sync::Wait;
use std::test::Fail;
use std::thread::Threads;

/// Queries whose replies have one line and many, and a refusal of none.
const QUERIES: &[u8] =
    b"comp x : A\nend\nlist omega max 2 take 10\nwrong\n# none\nlist omega max 1 take 1";

/// Inputs, and what is written for each. Their pieces may end within a character, a line and its ending, and a certificate.
const INPUTS: [(&[u8], &str); 4] = [
    (TWO_COMPONENTS, SIX_TERMS),
    (
        b"# \xc3\xa9\ncomp x : A\nend\n\xff\nsub A <= A",
        "error utf8\nyes\n",
    ),
    (b"comp x : A\r\nend\r\nsub A <= B\r\n", "no\n"),
    (b"end\nverify A\nempty\nmember omega\nqed", "accepted\n"),
];

/// A repository of a component whose name has 40 bytes.
const ONE_COMPONENT: &[u8] = b"comp abcdefghijklmnopqrstuvwxyz_abcdefghijklm : A\nend\n";

/// A sink that keeps each piece that it is offered, and takes at most `chunk` bytes of it. It tells nothing.
#[derive(Drop)]
struct Pieces {
    alloc: Global,
    offered: Vec<Vec<u8>>,
    chunk: usize,
    faults: u64,
    ghost some: { 0 < chunk },
}

impl Pieces {
    /// Keeps a copy of the piece.
    fn keep(&mut self, piece: &[u8]) -> Result<(), OutOfMemory>
        ensures chunk { self.new.chunk ≡ self.old.chunk }
        ensures faults { self.new.faults ≡ self.old.faults }
    {
        let kept = piece.to_vec(self.alloc)?;
        self.offered.push(kept)?;
        Ok(())
    }
}

impl Sink for Pieces {
    ghost seen = { λ s. record { held = None; room = None; faults = s.faults } };

    fn write(&mut self, piece: &[u8]) -> Result<usize, Failed> {
        match self.keep(piece) {
            Ok(()) => Ok(piece.len().min(self.chunk)),
            Err(_) => {
                self.faults = self.faults.saturating_add(1);
                Err(Failed)
            }
        }
    }
}

#[test]
fn output_is_the_same_whatever_the_pieces(rt: HostRuntime) -> Result<(), Fail> {
    for (input, text) in INPUTS {
        for chunk in [1, 2, 3, 7, WHOLE] {
            let outside = Outside {
                chunk,
                failing_reads: &[],
                failing_writes: &[],
            };
            let (status, written) = outcome(&rt, rt.alloc(), &[], input, &outside)?;
            assert_eq!(rt; written.as_str(), text, "{chunk} bytes at once");
            assert_eq!(rt; status, Status::Done, "{chunk} bytes at once");
        }
    }
    Ok(())
}

/// The pieces that a run over this input offers to a sink that takes at most `chunk` bytes of each, if at most `read`
/// bytes are read at once.
fn offered<R: Abort + Threads + Wait + Sync>(
    rt: &R,
    alloc: Global,
    input: &[u8],
    read: usize,
    chunk: usize,
) -> Result<Vec<Vec<u8>>, Fail>
    requires read { 0 < read }
    requires chunk { 0 < chunk }
{
    let mut source = MemorySource::new(input.to_vec(alloc)?, read, Numbers::new(Vec::new(alloc)));
    let mut sink = Pieces {
        alloc,
        offered: Vec::new(alloc),
        chunk,
        faults: 0,
    };
    let status = run(rt, alloc, &[], &mut source, &mut sink, &OpenGate);
    assert_eq!(rt; status, Status::Done, "{chunk} bytes at once");
    Ok(sink.offered)
}

#[test]
fn a_piece_ends_with_a_line_or_is_the_rest_of_one(rt: HostRuntime) -> Result<(), Fail> {
    // The first two replies are written together if the lines come in one piece.
    for (read, expected) in [(1, 3), (16, 2), (WHOLE, 2)] {
        for chunk in [1, 3, 7, WHOLE] {
            let pieces = offered(&rt, rt.alloc(), QUERIES, read, chunk)?;
            let mut rest: &[u8] = &[];
            let mut whole: usize = 0;
            for piece in pieces.iter() {
                if rest.is_empty() {
                    assert!(rt; piece.ends_with(b"\n"), "{chunk} bytes at once");
                    whole = whole.saturating_add(1);
                } else {
                    assert_eq!(rt; piece.as_slice(), rest, "{chunk} bytes at once");
                }
                rest = &piece[piece.len().min(chunk)..];
            }
            assert!(rt; rest.is_empty(), "{chunk} bytes at once");
            assert_eq!(rt;
                whole,
                expected,
                "{read} bytes read and {chunk} written at once"
            );
        }
    }
    Ok(())
}

/// Asserts that the replies to these queries, which come in one piece, are written in pieces of these lengths.
fn assert_lengths<R: Abort + Threads + Wait + Sync>(
    rt: &R,
    alloc: Global,
    queries: &[&str],
    lengths: &[usize],
) -> Result<(), Fail> {
    let mut input = ONE_COMPONENT.to_vec(alloc)?;
    for query in queries {
        input.extend_from_slice(query.as_bytes())?;
    }
    let pieces = offered(rt, alloc, input.as_slice(), WHOLE, WHOLE)?;
    assert_eq!(rt; pieces.len(), lengths.len());
    for (piece, length) in pieces.iter().zip(lengths) {
        assert_eq!(rt; piece.len(), *length);
        assert!(rt; piece.ends_with(b"\n"));
    }
    Ok(())
}

/// The length of the reply to a query.
fn reply_length<R: Threads + Wait + Sync>(
    rt: &R,
    alloc: Global,
    query: &str,
) -> Result<usize, Fail> {
    let mut input = ONE_COMPONENT.to_vec(alloc)?;
    input.extend_from_slice(query.as_bytes())?;
    let outside = Outside {
        chunk: WHOLE,
        failing_reads: &[],
        failing_writes: &[],
    };
    Ok(outcome(rt, alloc, &[], input.as_slice(), &outside)?.1.len())
}

#[test]
fn at_most_65536_bytes_of_replies_are_written_together(rt: HostRuntime) -> Result<(), Fail> {
    let query = "list omega max 6 take 65\n";
    let reply = reply_length(&rt, rt.alloc(), query)?;
    assert!(rt; reply.saturating_mul(4) <= 65_536);
    assert!(rt; reply.saturating_mul(5) > 65_536);
    // The fifth has no room behind four others, so it is written with them.
    let lengths = [reply.saturating_mul(4), reply, reply.saturating_mul(2)];
    assert_lengths(&rt, rt.alloc(), &[query; 7], &lengths)
}

#[test]
fn a_reply_of_more_bytes_is_written_in_portions(rt: HostRuntime) -> Result<(), Fail> {
    let query = "list omega max 8 take 300\n";
    let reply = reply_length(&rt, rt.alloc(), query)?;
    assert!(rt; reply > 65_536);
    let mut input = ONE_COMPONENT.to_vec(rt.alloc())?;
    input.extend_from_slice(query.as_bytes())?;
    let pieces = offered(&rt, rt.alloc(), input.as_slice(), WHOLE, WHOLE)?;
    assert!(rt; pieces.len() > 1);
    let mut total: usize = 0;
    for piece in pieces.iter() {
        assert!(rt; piece.len() <= 65_536);
        assert!(rt; piece.ends_with(b"\n"));
        total = total.saturating_add(piece.len());
    }
    assert_eq!(rt; total, reply);
    Ok(())
}
