//! Sources and sinks, in memory and over readers and writers.
use std::io::{self, Read, Write};
use std::test::Fail;
use zn_io::{Failed, MemSink, MemSource, Sink, Source, StdSink, StdSource, write_all};

#[test]
fn a_source_gives_pieces_and_fails_by_its_list(rt: HostRuntime) -> Result<(), Fail> {
    let bytes = b"zones".to_vec(rt.alloc())?;
    let mut source = MemSource::new(bytes, 3, [2].to_vec(rt.alloc())?);
    let mut piece = [0; 8];
    assert_eq!(rt; source.read(&mut piece), Ok(3));
    assert_eq!(rt; source.read(&mut piece), Err(Failed));
    assert_eq!(rt; source.read(&mut piece), Ok(2));
    assert_eq!(rt; &piece[..2], b"es".as_slice());
    assert_eq!(rt; source.read(&mut piece), Ok(0));
    Ok(())
}

#[test]
fn a_sink_fails_by_its_list_and_where_it_is_full(rt: HostRuntime) -> Result<(), Fail> {
    let mut sink = MemSink::new(rt.alloc(), 4, [1].to_vec(rt.alloc())?)?;
    assert_eq!(rt; sink.write(b"zo"), Err(Failed));
    assert_eq!(rt; sink.write(b"zo"), Ok(2));
    assert_eq!(rt; write_all(&mut sink, b"nes"), Err(Failed));
    assert_eq!(rt; sink.bytes(), b"zone".as_slice());
    Ok(())
}

// A reader and a writer that always fail.
#[derive(Drop)]
struct Broken;

impl Read for Broken {
    fn read(&mut self, _buf: &mut [u8]) -> io::Result<usize> {
        Err(io::Error::from(io::ErrorKind::BrokenPipe))
    }
}

impl Write for Broken {
    fn write(&mut self, _buf: &[u8]) -> io::Result<usize> {
        Err(io::Error::from(io::ErrorKind::BrokenPipe))
    }

    fn flush(&mut self) -> io::Result<()> {
        Ok(())
    }
}

#[test]
fn a_source_reads_its_reader(rt: HostRuntime) {
    let mut source = StdSource::new(b"zones".as_slice());
    let mut piece = [0; 3];
    assert_eq!(rt; source.read(&mut piece), Ok(3));
    assert_eq!(rt; piece, *b"zon");
    assert_eq!(rt; source.read(&mut piece), Ok(2));
    assert_eq!(rt; source.read(&mut piece), Ok(0));

    let mut broken = StdSource::new(Broken);
    assert_eq!(rt; broken.read(&mut piece), Err(Failed));
}

#[test]
fn a_sink_writes_its_writer(rt: HostRuntime) {
    let mut written = Vec::new(rt.alloc());
    let mut sink = StdSink::new(&mut written);
    assert_eq!(rt; write_all(&mut sink, b"zones"), Ok(()));
    assert_eq!(rt; written.as_slice(), b"zones".as_slice());

    let mut broken = StdSink::new(Broken);
    assert_eq!(rt; broken.write(b"zones"), Err(Failed));
}
