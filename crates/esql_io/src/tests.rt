use super::*;
use esql_types::{Seq, Text};
use std::io;
use std::test::Fail;

#[test]
fn a_sink_takes_pieces(rt: HostRuntime) -> Result<(), Fail> {
    let mut failing = Seq::new(rt.alloc());
    failing.push(1)?;
    let mut sink = MemorySink::new(rt.alloc(), 8, 3, failing)?;
    assert_eq!(rt; sink.write(b"abcdef"), Ok(3));
    assert_eq!(rt; sink.write(b"def"), Err(Failed));
    assert_eq!(rt; write_whole(&mut sink, b"defgh"), Ok(()));
    assert_eq!(rt; sink.bytes(), b"abcdefgh".as_slice());
    assert_eq!(rt; write_whole(&mut sink, b"i"), Err(Failed));
    Ok(())
}

#[test]
fn a_stream_takes_bytes(rt: HostRuntime) -> Result<(), Fail> {
    let mut sink = StdSink::new(io::writer(&rt));
    assert_eq!(rt; write_whole(&mut sink, b"a line\n"), Ok(()));
    Ok(())
}

fn held(rt: &HostRuntime, name: &str, bytes: &[u8]) -> Result<HeldFile, Fail> {
    Ok(HeldFile {
        name: Text::from_str(rt.alloc(), name)?,
        bytes: Seq::from_vec(Vec::from_slice(rt.alloc(), bytes)?),
    })
}

#[test]
fn files_are_read_in_pieces(rt: HostRuntime) -> Result<(), Fail> {
    let mut files = Seq::new(rt.alloc());
    files.push(held(&rt, "a", b"12345")?)?;
    files.push(held(&rt, "b", b"")?)?;
    let mut failing = Seq::new(rt.alloc());
    failing.push(5)?;
    let mut files = MemoryFiles::new(files, 3, failing);
    let mut piece = [0; 4];
    assert_eq!(rt; files.open("c"), Ok(false));
    assert_eq!(rt; files.open("a"), Ok(true));
    assert_eq!(rt; files.read(&mut piece), Ok(3));
    assert_eq!(rt; piece, *b"123\0");
    assert_eq!(rt; files.read(&mut piece), Ok(2));
    assert_eq!(rt; piece, *b"453\0");
    assert_eq!(rt; files.read(&mut piece), Ok(0));
    assert_eq!(rt; files.open("b"), Err(Failed));
    assert_eq!(rt; files.read(&mut piece), Ok(0));
    Ok(())
}
