use crate::adapters::{ReaderSource, Stream, StreamSink};
use std::test::Fail;
use udb_base::{Sink, Source};

#[test]
fn a_reader_gives_its_bytes_and_then_none(rt: HostRuntime) -> Result<(), Fail> {
    let text: &[u8] = b"abc";
    let mut source = ReaderSource {
        reader: text,
        faults: 0,
    };
    let mut into = [0; 8];
    assert!(rt; source.read(&mut into) == Ok(3) && into[0] == b'a' && into[2] == b'c');
    assert!(rt; source.read(&mut into) == Ok(0) && source.faults == 0);
    Ok(())
}

// Whether the bytes that a stream holds are these.
fn holds(sink: &StreamSink<Vec<u8>, Vec<u8>>, bytes: &[u8]) -> bool {
    match &sink.stream {
        Stream::Results(held) => held.as_slice() == bytes,
        Stream::Errors(held) => held.as_slice() == bytes,
    }
}

#[test]
fn both_streams_take_what_is_written(rt: HostRuntime) -> Result<(), Fail> {
    let mut results: StreamSink<Vec<u8>, Vec<u8>> = StreamSink {
        stream: Stream::Results(Vec::new(rt.alloc())),
        faults: 0,
    };
    assert!(rt; results.write(b"abc").is_ok() && results.faults == 0);
    assert!(rt; holds(&results, b"abc"));
    let mut errors: StreamSink<Vec<u8>, Vec<u8>> = StreamSink {
        stream: Stream::Errors(Vec::new(rt.alloc())),
        faults: 0,
    };
    assert!(rt; errors.write(b"not a ").is_ok() && errors.write(b"command\n").is_ok());
    assert!(rt; errors.faults == 0 && holds(&errors, b"not a command\n"));
    Ok(())
}
