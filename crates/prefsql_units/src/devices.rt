//! What is read and written through the devices of memory and of the system.
use prefsql_io::{
    Failed, FileShelf, LoadError, MemoryShelf, MemorySink, MemorySource, ReadError, Shelf, Sink,
    Source, StdSink, StdSource, read_to_end, write_all,
};
use std::cell::Cell;
use std::fs;
use std::io::{self, ErrorKind, Read, Write};
use std::test::Fail;

// Interrupted some times, and then it reads zeros, or takes all.
#[derive(Drop)]
struct Interrupted {
    times: u32,
}

impl Read for Interrupted {
    fn read(&mut self, buf: &mut [u8]) -> io::Result<usize> {
        if self.times > 0 {
            self.times -= 1;
            return Err(ErrorKind::Interrupted.into());
        }
        Ok(buf.len())
    }
}

impl Write for Interrupted {
    fn write(&mut self, buf: &[u8]) -> io::Result<usize> {
        if self.times > 0 {
            self.times -= 1;
            return Err(ErrorKind::Interrupted.into());
        }
        Ok(buf.len())
    }

    fn flush(&mut self) -> io::Result<()> {
        Ok(())
    }
}

// Takes all, and says how much of it was flushed.
#[derive(Drop)]
struct Flushed<'a> {
    taken: usize,
    flushed: &'a Cell<usize>,
}

impl Write for Flushed<'_> {
    fn write(&mut self, buf: &[u8]) -> io::Result<usize> {
        self.taken = self.taken.saturating_add(buf.len());
        Ok(buf.len())
    }

    fn flush(&mut self) -> io::Result<()> {
        self.flushed.set(self.taken);
        Ok(())
    }
}

#[test]
fn a_std_source_reads_and_tries_again(rt: HostRuntime) {
    let mut source = StdSource::new(b"hello".as_slice());
    let mut into = [0; 3];
    assert_eq!(rt; source.read(&mut into), Ok(3));
    assert_eq!(rt; into, *b"hel");
    assert_eq!(rt; source.read(&mut into), Ok(2));
    assert_eq!(rt; into, *b"lol");
    assert_eq!(rt; source.read(&mut into), Ok(0));
    let mut source = StdSource::new(Interrupted { times: 100 });
    assert_eq!(rt; source.read(&mut into), Ok(3));
    let mut source = StdSource::new(Interrupted { times: 101 });
    assert_eq!(rt; source.read(&mut into), Err(Failed));
}

#[test]
fn a_std_sink_writes_and_flushes(rt: HostRuntime) {
    let mut room = [0; 2];
    let mut sink = StdSink::new(room.as_mut_slice());
    assert_eq!(rt; sink.write(b"abc"), Ok(2));
    assert_eq!(rt; sink.write(b"c"), Err(Failed));
    drop(sink);
    assert_eq!(rt; room, *b"ab");
    let flushed = Cell::new(0);
    let mut sink = StdSink::new(Flushed {
        taken: 0,
        flushed: &flushed,
    });
    assert_eq!(rt; sink.write(b"abc"), Ok(3));
    assert_eq!(rt; flushed.get(), 3);
    let mut sink = StdSink::new(Interrupted { times: 100 });
    assert_eq!(rt; sink.write(b"abc"), Ok(3));
    let mut sink = StdSink::new(Interrupted { times: 101 });
    assert_eq!(rt; sink.write(b"abc"), Err(Failed));
}

#[test]
fn a_file_shelf_loads_files(rt: HostRuntime) -> Result<(), Fail> {
    let path = "prefsql_io_test.txt";
    fs::write(&rt, path, b"five!".as_slice())?;
    let mut shelf = FileShelf::new(rt);
    let loaded = shelf.load(rt.alloc(), path, 5);
    let longer = shelf.load(rt.alloc(), path, 4);
    fs::remove_file(&rt, path)?;
    assert_eq!(rt; loaded?.as_slice(), b"five!".as_slice());
    assert!(rt; matches!(longer, Err(LoadError::TooLong)));
    assert!(rt; matches!(shelf.load(rt.alloc(), path, 5), Err(LoadError::Failed)));
    Ok(())
}

#[test]
fn a_memory_sink_is_full_or_fails(rt: HostRuntime) -> Result<(), Fail> {
    let mut sink = MemorySink::new(rt.alloc(), 5, 3, Vec::new(rt.alloc()))?;
    assert_eq!(rt; write_all(&mut sink, b"hell"), Ok(()));
    assert_eq!(rt; write_all(&mut sink, b"o!"), Err(Failed));
    assert_eq!(rt; sink.written(), b"hello".as_slice());
    // the second write is listed, and none is tried after it
    let mut sink = MemorySink::new(rt.alloc(), 9, 3, [2].to_vec(rt.alloc())?)?;
    assert_eq!(rt; write_all(&mut sink, b"hello!"), Err(Failed));
    assert_eq!(rt; sink.written(), b"hel".as_slice());
    Ok(())
}

#[test]
fn a_memory_source_fails_where_listed(rt: HostRuntime) -> Result<(), Fail> {
    let alloc = rt.alloc();
    let mut source = MemorySource::new(b"abcdef".to_vec(alloc)?, 4, [1].to_vec(alloc)?);
    let mut into = [0; 1];
    assert_eq!(rt; source.read(&mut into), Err(Failed));
    let all = read_to_end(alloc, &mut source, 6)?;
    assert_eq!(rt; all.as_slice(), b"abcdef".as_slice());
    let mut source = MemorySource::new(b"abcdef".to_vec(alloc)?, 4, Vec::new(alloc));
    assert!(rt; matches!(read_to_end(alloc, &mut source, 5), Err(ReadError::TooLong)));
    // the second read is listed, and none is tried after it
    let mut source = MemorySource::new(b"abcdef".to_vec(alloc)?, 4, [2].to_vec(alloc)?);
    assert!(rt; matches!(read_to_end(alloc, &mut source, 6), Err(ReadError::Failed)));
    assert_eq!(rt;
        read_to_end(alloc, &mut source, 6)?.as_slice(),
        b"ef".as_slice()
    );
    Ok(())
}

#[test]
fn a_memory_shelf_replaces_and_fails_once(rt: HostRuntime) -> Result<(), Fail> {
    let alloc = rt.alloc();
    let mut shelf = MemoryShelf::new(alloc, [2].to_vec(alloc)?);
    shelf.add("a", b"old".to_vec(alloc)?)?;
    shelf.add("b", b"bee".to_vec(alloc)?)?;
    shelf.add("a", b"new".to_vec(alloc)?)?;
    assert_eq!(rt; shelf.load(alloc, "a", 3)?.as_slice(), b"new".as_slice());
    assert!(rt; matches!(shelf.load(alloc, "b", 3), Err(LoadError::Failed)));
    assert_eq!(rt; shelf.load(alloc, "b", 3)?.as_slice(), b"bee".as_slice());
    assert!(rt; matches!(shelf.load(alloc, "b", 2), Err(LoadError::TooLong)));
    assert!(rt; matches!(shelf.load(alloc, "c", 3), Err(LoadError::Failed)));
    Ok(())
}
