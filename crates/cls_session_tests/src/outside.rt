ghost use Rattle.std.specs.Prelude.{◌<◌};

use cls_base::{Gate, MemorySink, MemorySource, Numbers, OpenGate};
use cls_session::{Status, run};
use std::alloc::Global;
use std::sync::Wait;
use std::test::Fail;
use std::thread::Threads;

/// More bytes than a run here writes.
const SPARE: usize = 131_072;

/// The bytes of a read or a write, if the source and the sink are to cut nothing short.
pub const WHOLE: usize = 4_194_304;

pub const TWO_COMPONENTS: &[u8] = b"comp x : A\ncomp y : B\nend\nlist omega max 2 take 10\n";

pub const SIX_TERMS: &str = "term x\nterm y\nterm x(x)\nterm x(y)\nterm y(x)\nterm y(y)\ndone\n";

/// How the outside cuts reads and writes short, and which of them fail, counted from 1.
#[derive(Clone, Copy)]
pub struct Outside<'a> {
    pub chunk: usize,
    pub failing_reads: &'a [u32],
    pub failing_writes: &'a [u32],
    ghost some: { 0 < chunk },
}

/// The status of a run with these words over this input, and what it wrote.
pub fn outcome<R: Threads + Wait + Sync>(
    rt: &R,
    alloc: Global,
    words: &[&str],
    input: &[u8],
    outside: &Outside,
) -> Result<(Status, String), Fail> {
    outcome_under(rt, alloc, words, input, outside, &OpenGate)
}

/// The same of a run that tells the gate of its claims.
pub fn outcome_under<R: Threads + Wait + Sync, G: Gate + Sync>(
    rt: &R,
    alloc: Global,
    words: &[&str],
    input: &[u8],
    outside: &Outside,
    gate: &G,
) -> Result<(Status, String), Fail> {
    let mut owned = Vec::new(alloc);
    for word in words {
        owned.push(String::from_str(alloc, word)?)?;
    }
    let fails = Numbers::new(outside.failing_reads.to_vec(alloc)?);
    let mut source = MemorySource::new(input.to_vec(alloc)?, outside.chunk, fails);
    let fails = Numbers::new(outside.failing_writes.to_vec(alloc)?);
    let mut sink = MemorySink::new(alloc, SPARE, outside.chunk, fails)?;
    let status = run(rt, alloc, owned.as_slice(), &mut source, &mut sink, gate);
    let output = String::from_str(alloc, str::from_utf8(sink.held())?)?;
    Ok((status, output))
}
