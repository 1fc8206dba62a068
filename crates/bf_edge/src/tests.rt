//! The worked behaviour, and that each call can succeed.
use crate::{
    Failed, MemSink, MemSource, PAGE_SIZE, ReadEnd, Sheet, Sink, Source, StdSink, StdSource,
    finish, print, print_number, print_numbers, read_up_to, write_all,
};
use std::io;
use std::test::Fail;

// A reader and a writer of std whose every call is an error.
#[derive(Drop)]
struct Broken;

impl io::Read for Broken {
    fn read(&mut self, _buf: &mut [u8]) -> io::Result<usize> {
        Err(io::Error::from(io::ErrorKind::Other))
    }
}

impl io::Write for Broken {
    fn write(&mut self, _buf: &[u8]) -> io::Result<usize> {
        Err(io::Error::from(io::ErrorKind::Other))
    }

    fn flush(&mut self) -> io::Result<()> {
        Err(io::Error::from(io::ErrorKind::Other))
    }
}

#[test]
fn a_source_gives_its_pieces(rt: HostRuntime) -> Result<(), Fail> {
    let bytes = b"abcde".to_vec(rt.alloc())?;
    let mut source = MemSource::new(bytes, 2, Vec::new(rt.alloc()));
    let mut into = [b'.'; 4];
    assert_eq!(rt; source.read(&mut into), Ok(2));
    assert_eq!(rt; into.as_slice(), b"ab..".as_slice());
    assert_eq!(rt; source.read(&mut into), Ok(2));
    assert_eq!(rt; source.read(&mut into), Ok(1));
    assert_eq!(rt; into.as_slice(), b"ed..".as_slice());
    assert_eq!(rt; source.read(&mut into), Ok(0));
    Ok(())
}

#[test]
fn a_source_fails_where_it_is_told_to(rt: HostRuntime) -> Result<(), Fail> {
    let bytes = b"abcde".to_vec(rt.alloc())?;
    let failing = [2, 3].to_vec(rt.alloc())?;
    let mut source = MemSource::new(bytes, 2, failing);
    let mut into = [b'.'; 4];
    assert_eq!(rt; source.read(&mut into), Ok(2));
    assert_eq!(rt; source.read(&mut into), Err(Failed));
    assert_eq!(rt; source.read(&mut into), Err(Failed));
    assert_eq!(rt; source.faults(), 2);
    assert_eq!(rt; source.left(), b"cde".as_slice());
    assert_eq!(rt; source.read(&mut into), Ok(2));
    Ok(())
}

#[test]
fn a_sink_takes_its_pieces_until_it_is_full(rt: HostRuntime) -> Result<(), Fail> {
    let mut sink = MemSink::new(rt.alloc(), 3, 4, Vec::new(rt.alloc()))?;
    assert_eq!(rt; sink.write(b"abcde"), Ok(3));
    assert_eq!(rt; sink.write(b"de"), Ok(1));
    assert_eq!(rt; sink.write(b""), Ok(0));
    assert_eq!(rt; sink.write(b"e"), Err(Failed));
    assert_eq!(rt; sink.faults(), 1);
    assert_eq!(rt; sink.written(), b"abcd".as_slice());
    Ok(())
}

#[test]
fn all_is_written_byte_by_byte(rt: HostRuntime) -> Result<(), Fail> {
    let mut sink = MemSink::new(rt.alloc(), 1, 5, [6].to_vec(rt.alloc())?)?;
    assert_eq!(rt; write_all(&mut sink, b"abcde"), Ok(()));
    assert_eq!(rt; sink.written(), b"abcde".as_slice());
    assert_eq!(rt; write_all(&mut sink, b"f"), Err(Failed));
    assert_eq!(rt; sink.written(), b"abcde".as_slice());
    Ok(())
}

#[test]
fn reading_ends_at_the_end_or_past_the_limit(rt: HostRuntime) -> Result<(), Fail> {
    for (limit, want) in [(2, b"abc".as_slice()), (4, b"abcde"), (5, b"abcde")] {
        let bytes = b"abcde".to_vec(rt.alloc())?;
        let mut source = MemSource::new(bytes, 2, Vec::new(rt.alloc()));
        let read = read_up_to(rt.alloc(), &mut source, limit)
            .ok()
            .ok_or("refused")?;
        assert_eq!(rt; read.as_slice(), want);
    }
    Ok(())
}

#[test]
fn a_fault_ends_reading(rt: HostRuntime) -> Result<(), Fail> {
    let bytes = b"abcde".to_vec(rt.alloc())?;
    let mut source = MemSource::new(bytes, 2, [2].to_vec(rt.alloc())?);
    let end = read_up_to(rt.alloc(), &mut source, 9).err();
    assert_eq!(rt; end, Some(ReadEnd::Fault));
    assert_eq!(rt; source.left(), b"cde".as_slice());
    Ok(())
}

#[test]
fn a_reader_of_std_is_a_source(rt: HostRuntime) -> Result<(), Fail> {
    let text = b"abc".as_slice();
    let mut source = StdSource::new(text);
    let read = read_up_to(rt.alloc(), &mut source, 9)
        .ok()
        .ok_or("refused")?;
    assert_eq!(rt; read.as_slice(), text);
    Ok(())
}

#[test]
fn a_writer_of_std_is_a_sink(rt: HostRuntime) -> Result<(), Fail> {
    let mut taken = [b'.'; 4];
    let mut sink = StdSink::new(taken.as_mut_slice());
    assert_eq!(rt; write_all(&mut sink, b"abc"), Ok(()));
    // There is room for one of the two bytes: the writer takes it, and then takes none.
    assert_eq!(rt; write_all(&mut sink, b"de"), Err(Failed));
    assert_eq!(rt; taken.as_slice(), b"abcd".as_slice());
    Ok(())
}

#[test]
fn an_error_of_std_is_a_failure(rt: HostRuntime) -> Result<(), Fail> {
    let end = read_up_to(rt.alloc(), &mut StdSource::new(Broken), 9).err();
    assert_eq!(rt; end, Some(ReadEnd::Fault));
    assert_eq!(rt; write_all(&mut StdSink::new(Broken), b"abc"), Err(Failed));
    Ok(())
}

#[test]
fn small_texts_are_written_in_one_call(rt: HostRuntime) -> Result<(), Fail> {
    let mut sink = MemSink::new(rt.alloc(), 64, 64, [2].to_vec(rt.alloc())?)?;
    let mut sheet = Sheet::new();
    print(&mut sink, &mut sheet, b"roots");
    print_numbers(&mut sink, &mut sheet, &[0, 4294967295]);
    print(&mut sink, &mut sheet, b"\n");
    print_number(&mut sink, &mut sheet, 10);
    assert_eq!(rt; sink.written(), b"".as_slice());
    assert_eq!(rt; finish(&mut sink, &mut sheet), Ok(()));
    assert_eq!(rt; sink.written(), b"roots 0 4294967295\n10".as_slice());
    Ok(())
}

#[test]
fn a_text_longer_than_a_page_is_written(rt: HostRuntime) -> Result<(), Fail> {
    let long = [b'b'; PAGE_SIZE + 1];
    let mut sink = MemSink::new(rt.alloc(), 8192, 8192, Vec::new(rt.alloc()))?;
    let mut sheet = Sheet::new();
    print(&mut sink, &mut sheet, b"a");
    print(&mut sink, &mut sheet, &long);
    print(&mut sink, &mut sheet, b"c");
    assert_eq!(rt; sink.written().len(), PAGE_SIZE + 2);
    assert_eq!(rt; sink.written().first(), Some(&b'a'));
    assert_eq!(rt; sink.written().last(), Some(&b'b'));
    assert_eq!(rt; finish(&mut sink, &mut sheet), Ok(()));
    assert_eq!(rt; sink.written().last(), Some(&b'c'));
    Ok(())
}

#[test]
fn a_failure_of_the_sink_ends_a_page(rt: HostRuntime) -> Result<(), Fail> {
    let mut sink = MemSink::new(rt.alloc(), 2, 64, [2].to_vec(rt.alloc())?)?;
    let mut sheet = Sheet::new();
    print(&mut sink, &mut sheet, b"abc");
    assert_eq!(rt; finish(&mut sink, &mut sheet), Err(Failed));
    assert_eq!(rt; sink.written(), b"ab".as_slice());
    Ok(())
}

// Only the first call fails, and no other follows.
#[test]
fn a_sink_that_has_failed_is_not_called_again(rt: HostRuntime) -> Result<(), Fail> {
    let long = [b'b'; PAGE_SIZE + 1];
    let mut sink = MemSink::new(rt.alloc(), 8192, 8192, [1].to_vec(rt.alloc())?)?;
    let mut sheet = Sheet::new();
    print(&mut sink, &mut sheet, &long);
    print(&mut sink, &mut sheet, &long);
    print(&mut sink, &mut sheet, b"c");
    assert_eq!(rt; finish(&mut sink, &mut sheet), Err(Failed));
    assert_eq!(rt; finish(&mut sink, &mut sheet), Err(Failed));
    assert_eq!(rt; sink.written(), b"".as_slice());
    assert_eq!(rt; sink.faults(), 1);
    Ok(())
}
