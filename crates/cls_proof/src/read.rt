//! Reads the lines of a certificate, one after another.
ghost use Rattle.std.specs.Prelude.{◌≡◌, ◌+◌, ◌<◌, ◌^◌, length, take, IfOk, MatchResult, OnErr};
ghost use Rattle.cls_proof.specs.Drafts.{said_in};
ghost use Rattle.cls_proof.specs.Chunks.{lines_in, IsReadBehind, IsChunkFault};
ghost use Rattle.cls_proof.specs.Reading.{SaysCertificate, IsProofFault};
ghost use Rattle.cls_proof.specs.Said.{HasGrown};
ghost use Rattle.cls_proof.specs.Seen.{certificate_of};
ghost use Rattle.cls_proof.specs.Texts.{IsHeld};

use crate::certificate::Certificate;
use crate::chunk::Chunk;
use crate::draft::Draft;
use crate::lines::HeldLines;
use crate::proof_fault::ProofFault;
use crate::reading::{ReadLine, read_line};
use cls_lexer::Names;
use std::alloc::Global;

/// The certificate that the lines say, up to `qed`: a line after it that isn't skipped is bad. The constructors of its types
/// are numbered in the order of their tokens. After a refusal the table is as before.
///
/// The error is `BadLine` with the number of the first bad line, counted from 1, and otherwise `NoQed` if none is `qed`.
/// Lines that are skipped count.
pub fn read_certificate(
    alloc: Global,
    names: &mut Names,
    components: &Names,
    lines: HeldLines,
) -> Result<Certificate, ProofFault>
    requires { length lines < 2 ^ 32 }
    ensures exact { MatchResult result
        (λ certificate. SaysCertificate names.old names.new components.now lines (certificate_of certificate))
        (IsProofFault components.now lines) }
    ensures held { IfOk result (λ certificate.
        IsHeld (length names.new) (length components.now) (certificate_of certificate)) }
    ensures names_stay { OnErr result (names.new ≡ names.old) }
{
    let count = names.len();
    let chunks = lines.into_chunks()?;
    let read = read_chunks(alloc, names, components, chunks);
    if read.is_err() {
        names.cut(count);
    }
    read
}

/// The same of the lines of the chunks, but after a refusal the table may have grown.
fn read_chunks(
    alloc: Global,
    names: &mut Names,
    components: &Names,
    chunks: Vec<Chunk>,
) -> Result<Certificate, ProofFault>
    requires { length (lines_in chunks.items) < 2 ^ 32 }
    ensures exact { MatchResult result
        (λ certificate.
        SaysCertificate names.old names.new components.now (lines_in chunks.items) (certificate_of certificate))
        (IsProofFault components.now (lines_in chunks.items)) }
    ensures held { IfOk result (λ certificate.
        IsHeld (length names.new) (length components.now) (certificate_of certificate)) }
    ensures kept { take (length names.old) names.new ≡ names.old }
{
    let mut draft = Draft::Start;
    let mut number = 0;
    for chunk in chunks {
        draft = read_chunk(alloc, names, components, &chunk, number, draft)?;
        number += chunk.len() as u32;
    }
    draft.finish().ok_or(ProofFault::NoQed)
}

/// Reads the lines of a chunk behind those that the draft is up to, of which there are `before`, and gives the draft up to
/// the last of them.
fn read_chunk(
    alloc: Global,
    names: &mut Names,
    components: &Names,
    chunk: &Chunk,
    before: u32,
    mut draft: Draft,
) -> Result<Draft, ProofFault>
    requires { before + length chunk.now < 2 ^ 32 }
    ensures read { MatchResult result
        (λ behind. IsReadBehind components.now names.old names.new chunk.now (said_in draft) (said_in behind))
        (IsChunkFault components.now names.old chunk.now before draft) }
    ensures grown { HasGrown names.old names.new }
{
    let mut number = before;
    let mut room = Vec::new(alloc);
    for i in 0..chunk.len() {
        let line = chunk.get(i);
        number += 1;
        let statement = match read_line(alloc, names, components, &line, &mut room)? {
            ReadLine::Skipped => continue,
            ReadLine::Bad => return Err(ProofFault::BadLine(number)),
            ReadLine::Says(statement) => statement,
        };
        if !draft.add(alloc, statement)? {
            return Err(ProofFault::BadLine(number));
        }
    }
    Ok(draft)
}
