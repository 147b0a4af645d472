//! Reading to the end and writing whole, over objects in memory and those of std.

use rss_io::{
    MemSink, MemSource, ReadError, Sink, Source, StdSink, StdSource, WriteFault, read_all,
    write_all,
};
use std::alloc::AllocError;
use std::io;
use std::io::{ErrorKind, Read, Write};
use std::test::Fail;

// A reader and a writer whose every call is an error.
#[derive(Drop)]
struct Broken;

impl Read for Broken {
    fn read(&mut self, _: &mut [u8]) -> io::Result<usize> {
        Err(io::Error::from(ErrorKind::BrokenPipe))
    }
}

// A writer that takes nothing.
#[derive(Drop)]
struct Full;

impl Write for Full {
    fn write(&mut self, _: &[u8]) -> io::Result<usize> {
        Ok(0)
    }

    fn flush(&mut self) -> io::Result<()> {
        Ok(())
    }
}

#[test]
fn reads_to_the_end_or_says_why(rt: HostRuntime) -> Result<(), Fail> {
    let alloc = rt.alloc();
    let whole: Result<&[u8], ReadError> = Ok(b"abc");
    let rows: [(usize, usize, &[u32], Result<&[u8], ReadError>); 6] = [
        (64, 3, &[], whole),
        (1, 3, &[], whole),
        (64, usize::MAX, &[], whole),
        (64, 2, &[], Err(ReadError::TooLong)),
        (64, 3, &[1], Err(ReadError::ReadFault)),
        (1, 3, &[4], Err(ReadError::ReadFault)),
    ];
    for (piece, limit, fails, wanted) in rows {
        assert!(rt; piece > 0);
        let mut source = MemSource::new(alloc, b"abc", piece, fails)?;
        let got = read_all(alloc, &mut source, limit);
        let same = match (&got, wanted) {
            (Ok(bytes), Ok(text)) => bytes.as_slice() == text,
            (Err(error), Err(refusal)) => *error == refusal,
            _ => false,
        };
        assert!(rt; same, "{piece} bytes a call, limit {limit}");
    }
    Ok(())
}

#[test]
fn refused_input_is_taken_up_to_the_limit(rt: HostRuntime) -> Result<(), Fail> {
    let alloc = rt.alloc();
    let mut source = MemSource::new(alloc, b"abcdef", 2, &[])?;
    assert!(rt; matches!(read_all(alloc, &mut source, 2), Err(ReadError::TooLong)));
    assert_eq!(rt;
        read_all(alloc, &mut source, 3)?.as_slice(),
        b"def".as_slice()
    );
    Ok(())
}

#[test]
fn failed_sink_keeps_what_came_before(rt: HostRuntime) -> Result<(), Fail> {
    let alloc = rt.alloc();
    let mut sink = MemSink::new(alloc, 8, &[2])?;
    assert_eq!(rt; write_all(&mut sink, b"stage a done"), Err(WriteFault));
    assert_eq!(rt; sink.bytes(), b"stage a ".as_slice());
    write_all(&mut sink, b"done")?;
    assert_eq!(rt; sink.bytes(), b"stage a done".as_slice());
    Ok(())
}

#[test]
fn readers_and_writers_of_std_serve(rt: HostRuntime) -> Result<(), Fail> {
    let alloc = rt.alloc();
    let text: &[u8] = b"to be copied";
    let read = read_all(alloc, &mut StdSource::new(text), 100)?;
    let mut copy: Vec<u8> = Vec::new(alloc);
    write_all(&mut StdSink::new(&mut copy), &read)?;
    assert_eq!(rt; copy.as_slice(), text);
    let broken = read_all(alloc, &mut StdSource::new(Broken), 100);
    assert!(rt; matches!(broken, Err(ReadError::ReadFault)));
    assert_eq!(rt; write_all(&mut StdSink::new(Full), text), Err(WriteFault));
    Ok(())
}
