//! Sources and sinks over memory.
ghost use Rattle.std.specs.Prelude.{length};
ghost use Rattle.cls_base.specs.Outside.{Holds};

use cls_base::{Failed, MemorySink, MemorySource, Numbers, Sink, Source, SureSink, SureSource};
use std::test::Fail;

/// Writes what one read gives, by what the traits say alone.
fn pass_on<S: Source, K: Sink>(
    source: &mut S,
    sink: &mut K,
    into: &mut [u8],
) -> Result<usize, Failed>
    requires { Holds (K.seen sink.old).room (length into.old) }
{
    let count = source.read(into)?;
    sink.write(&into[..count])
}

/// The second read fails, and so does the second write. The sink has room for four bytes.
#[test]
fn the_reads_and_writes_fail_that_are_named(rt: HostRuntime) -> Result<(), Fail> {
    let alloc = rt.alloc();
    let second = Numbers::new([2].to_vec(alloc)?);
    let mut source = MemorySource::new(b"abcde".to_vec(alloc)?, 3, second);
    let second = Numbers::new([2].to_vec(alloc)?);
    let mut sink = MemorySink::new(alloc, 4, 4, second)?;
    let mut into = [0; 8];
    for passed in [Ok(3), Err(Failed), Err(Failed), Ok(0)] {
        assert_eq!(rt; pass_on(&mut source, &mut sink, &mut into), passed);
    }
    assert_eq!(rt; sink.write(b"de"), Ok(1));
    assert_eq!(rt; sink.write(b"e"), Err(Failed));
    assert_eq!(rt; sink.held(), b"abcd".as_slice());
    Ok(())
}

#[test]
fn a_sure_source_goes_to_a_sure_sink(rt: HostRuntime) -> Result<(), Fail> {
    let mut source = SureSource::new(b"hello".to_vec(rt.alloc())?);
    let mut sink = SureSink::new(rt.alloc(), 6)?;
    assert_eq!(rt; pass_on(&mut source, &mut sink, &mut [0; 3]), Ok(3));
    assert!(rt; sink.room() == 3);
    assert_eq!(rt; pass_on(&mut source, &mut sink, &mut [0; 3]), Ok(2));
    assert_eq!(rt; sink.held(), b"hello".as_slice());
    Ok(())
}
