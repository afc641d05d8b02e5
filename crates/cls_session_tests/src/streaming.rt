ghost use Rattle.std.specs.Prelude.{◌<◌, None};

use cls_base::{Failed, MemorySink, MemorySource, Numbers, OpenGate, Sink, Source};
use cls_session::{Status, run};
use std::alloc::Global;
use std::process::Abort;
use std::sync::Wait;
use std::sync::atomic::{AtomicU64, Ordering};
use std::test::Fail;
use std::thread::Threads;

/// Two lines of 15 bytes in all, and two queries of 24 bytes each. The reply to a query has 12 bytes.
const QUERIES: &[u8] = b"comp x : A\nend\nlist omega max 1 take 1\nlist omega max 1 take 1\n";

const REPLIES: &str = "term x\ndone\nterm x\ndone\n";

/// A source that notes at each read how many bytes the sink has taken by then.
#[derive(Drop)]
struct Watcher<'a> {
    bytes: MemorySource,
    written: &'a AtomicU64,
    noted: [u64; 64],
    reads: usize,
}

impl<'a> Source for Watcher<'a> {
    ghost seen = { λ s. record { left = None; last = None; faults = s.bytes.faults } };

    fn read(&mut self, into: &mut [u8]) -> Result<usize, Failed> {
        if self.reads < 64 {
            self.noted[self.reads] = self.written.load(Ordering::SeqCst);
            self.reads += 1;
        }
        self.bytes.read(into)
    }
}

/// A sink that counts the bytes that it took where the source sees it.
#[derive(Drop)]
struct Counter<'a> {
    bytes: MemorySink,
    written: &'a AtomicU64,
}

impl<'a> Sink for Counter<'a> {
    ghost seen = { λ s. record { held = None; room = None; faults = s.bytes.faults } };

    fn write(&mut self, piece: &[u8]) -> Result<usize, Failed> {
        let count = self.bytes.write(piece)?;
        self.written.fetch_add(count as u64, Ordering::SeqCst);
        Ok(count)
    }
}

#[test]
fn each_reply_is_written_before_the_next_read(rt: HostRuntime) -> Result<(), Fail> {
    for chunk in [1, 5, 40, 63] {
        assert_written(&rt, rt.alloc(), chunk)?;
    }
    Ok(())
}

/// Asserts that the replies to all lines that came are written at each read, if at most `chunk` bytes come at once.
fn assert_written<R: Abort + Threads + Wait + Sync>(
    rt: &R,
    alloc: Global,
    chunk: usize,
) -> Result<(), Fail>
    requires { 0 < chunk }
{
    let written = AtomicU64::new(0);
    let none = Numbers::new(Vec::new(alloc));
    let mut source = Watcher {
        bytes: MemorySource::new(QUERIES.to_vec(alloc)?, chunk, none),
        written: &written,
        noted: [0; 64],
        reads: 0,
    };
    let none = Numbers::new(Vec::new(alloc));
    let mut sink = Counter {
        bytes: MemorySink::new(alloc, 24, 5, none)?,
        written: &written,
    };
    let status = run(rt, alloc, &[], &mut source, &mut sink, &OpenGate);
    assert_eq!(rt; status, Status::Done);
    assert_eq!(rt; str::from_utf8(sink.bytes.held())?, REPLIES);
    // The last read finds the end. The queries end at byte 39 and at byte 63.
    assert_eq!(rt;
        source.reads,
        QUERIES.len().div_ceil(chunk).saturating_add(1)
    );
    for (read, noted) in source.noted.iter().take(source.reads).enumerate() {
        let expected = match read.saturating_mul(chunk) {
            0..39 => 0,
            39..63 => 12,
            _ => 24,
        };
        assert_eq!(rt; *noted, expected, "before read {read} of {chunk} bytes");
    }
    Ok(())
}
