//! What no clause says: that calls succeed, the listed calls that fail, and the real files and streams.
use super::*;
use std::alloc::{AllocError, Global};
use std::io::Write;
use std::test::Fail;
use std::{fs, io};

fn named(alloc: Global, name: &str, bytes: &[u8]) -> Result<NamedFile, AllocError> {
    Ok(NamedFile {
        name: String::from_str(alloc, name)?,
        bytes: bytes.to_vec(alloc)?,
    })
}

fn two_files(alloc: Global) -> Result<Vec<NamedFile>, AllocError> {
    let mut files = Vec::new(alloc);
    files.push(named(alloc, "five", b"hello")?)?;
    files.push(named(alloc, "none", b"")?)?;
    Ok(files)
}

#[test]
fn a_file_is_read_up_to_the_limit(rt: HostRuntime) -> Result<(), Fail> {
    let alloc = rt.alloc();
    let mut inputs = MemInputs::new(alloc, two_files(alloc)?, Vec::new(alloc));
    for most in [5, 6, u64::MAX] {
        let bytes = read_all(alloc, &mut inputs, "five", most).expect(&rt, "the limit is met");
        assert_eq!(rt; bytes.as_slice(), b"hello".as_slice());
    }
    for most in [0, 4] {
        let refused = read_all(alloc, &mut inputs, "five", most).err();
        assert_eq!(rt; refused, Some(ReadFault::TooLong { most }), "at {most}");
    }
    let bytes = read_all(alloc, &mut inputs, "none", 0).expect(&rt, "no bytes");
    assert!(rt; bytes.is_empty());
    let refused = read_all(alloc, &mut inputs, "six", 5).err();
    assert_eq!(rt; refused, Some(ReadFault::NoFile));
    Ok(())
}

#[test]
fn a_long_file_is_read_in_pieces(rt: HostRuntime) -> Result<(), Fail> {
    let alloc = rt.alloc();
    let mut long = vec![in alloc; 7u8; 200000]?;
    long[65536] = 8;
    long[199999] = 9;
    let mut files = Vec::new(alloc);
    files.push(named(alloc, "long", long.as_slice())?)?;
    let mut inputs = SureInputs::new(alloc, files);
    let bytes = read_all(alloc, &mut inputs, "long", 200000).expect(&rt, "the limit is met");
    assert!(rt; bytes.as_slice() == long.as_slice());
    let refused = read_all(alloc, &mut inputs, "long", 199999).err();
    assert_eq!(rt; refused, Some(ReadFault::TooLong { most: 199999 }));
    let refused = read_all(alloc, &mut inputs, "short", 9).err();
    assert_eq!(rt; refused, Some(ReadFault::NoFile));
    Ok(())
}

#[test]
fn the_first_of_two_files_of_a_name_stands_for_it(rt: HostRuntime) -> Result<(), Fail> {
    let alloc = rt.alloc();
    let mut files = two_files(alloc)?;
    files.push(named(alloc, "none", b"later")?)?;
    let mut inputs = MemInputs::new(alloc, files, Vec::new(alloc));
    let bytes = read_all(alloc, &mut inputs, "none", 9).expect(&rt, "no bytes");
    assert!(rt; bytes.is_empty());
    Ok(())
}

// A whole reading of a file of one piece opens it, reads the piece and reads the end: calls 1, 2 and 3.
#[test]
fn the_listed_calls_of_inputs_fail(rt: HostRuntime) -> Result<(), Fail> {
    let alloc = rt.alloc();
    for call in [1, 2, 3, 4] {
        let failing = [call].to_vec(alloc)?;
        let mut inputs = MemInputs::new(alloc, two_files(alloc)?, failing);
        let refused = read_all(alloc, &mut inputs, "five", 5).err();
        let expected = if call < 4 {
            Some(ReadFault::Failed)
        } else {
            None
        };
        assert_eq!(rt; refused, expected, "at call {call}");
    }
    Ok(())
}

#[test]
fn a_sink_that_fails_holds_a_prefix(rt: HostRuntime) -> Result<(), Fail> {
    let alloc = rt.alloc();
    let text = b"cube 0 0 0 8\nr inner 3 2\n";
    let mut sink = MemSink::new(alloc, [2].to_vec(alloc)?, 10);
    assert_eq!(rt; write_all(&mut sink, text), Err(Failed));
    assert_eq!(rt; sink.bytes(), b"cube 0 0 0".as_slice());
    assert_eq!(rt; write_all(&mut sink, b" then"), Ok(()));
    assert_eq!(rt; sink.bytes(), b"cube 0 0 0 then".as_slice());
    Ok(())
}

#[test]
fn a_sink_of_one_byte_a_call_takes_all(rt: HostRuntime) -> Result<(), Fail> {
    let alloc = rt.alloc();
    let mut sink = MemSink::new(alloc, Vec::new(alloc), 1);
    assert_eq!(rt; write_all(&mut sink, b"byte by byte"), Ok(()));
    assert_eq!(rt; sink.bytes(), b"byte by byte".as_slice());
    assert_eq!(rt; write_all(&mut SureSink, b"byte by byte"), Ok(()));
    Ok(())
}

#[test]
fn real_files_are_read(rt: HostRuntime) -> Result<(), Fail> {
    let alloc = rt.alloc();
    let mut long = vec![in alloc; 7u8; 70000]?;
    long[69999] = 9;
    fs::write(&rt, "long.tmp", long.as_slice())?;
    let mut inputs = FileInputs::new(rt, alloc);
    let bytes = read_all(alloc, &mut inputs, "long.tmp", 70000);
    let refused = read_all(alloc, &mut inputs, "long.tmp", 69999);
    fs::remove_file(&rt, "long.tmp")?;
    assert!(rt; bytes.expect(&rt, "the limit is met").as_slice() == long.as_slice());
    assert_eq!(rt; refused.err(), Some(ReadFault::TooLong { most: 69999 }));
    let missing = read_all(alloc, &mut inputs, "missing.tmp", 9).err();
    assert_eq!(rt; missing, Some(ReadFault::NoFile));
    let folder = read_all(alloc, &mut inputs, ".", 9).err();
    assert_eq!(rt; folder, Some(ReadFault::Failed));
    Ok(())
}

// A stream that takes at most so many bytes, and then none.
#[derive(Drop)]
struct Narrow(usize);

impl Write for Narrow {
    fn write(&mut self, buf: &[u8]) -> io::Result<usize> {
        let n = buf.len().min(self.0);
        self.0 -= n;
        Ok(n)
    }

    fn flush(&mut self) -> io::Result<()> {
        Ok(())
    }
}

#[test]
fn real_streams_are_written(rt: HostRuntime) {
    let mut out = StdoutSink::new(rt.stdout());
    assert_eq!(rt; write_all(&mut out, b"to standard output\n"), Ok(()));
    let mut errors = StderrSink::new(rt.stderr());
    assert_eq!(rt; write_all(&mut errors, b"to standard error\n"), Ok(()));
    let mut narrow = StreamSink::new(Narrow(9));
    assert_eq!(rt; write_all(&mut narrow, b"too long for it"), Err(Failed));
}
