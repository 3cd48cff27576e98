//! Tests of the stores and sinks.

use super::*;
use std::alloc::Global;
use std::test::Fail;
use term_core::{Name, OutOfMemory, Seq};

/// Three files, of which the third has the name of the first.
fn three_files(alloc: Global) -> Result<Seq<(Name, Seq<u8>)>, OutOfMemory> {
    let mut files = Seq::new(alloc);
    for (name, text) in [("a", "one"), ("b", ""), ("a", "three")] {
        let name = Name::from_bytes(Vec::from_slice(alloc, name.as_bytes())?);
        let bytes = Seq::from_vec(Vec::from_slice(alloc, text.as_bytes())?);
        files.push((name, bytes))?;
    }
    Ok(files)
}

fn bytes_of(read: &Result<Vec<u8>, ReadError>) -> Result<&[u8], ReadError> {
    match read {
        Ok(bytes) => Ok(bytes.as_slice()),
        Err(error) => Err(*error),
    }
}

#[test]
fn reads_from_memory(rt: HostRuntime) -> Result<(), Fail> {
    let alloc = rt.alloc();
    let mut some = MemFiles::new(three_files(alloc)?, Seq::from_vec(vec![in alloc; 5]?));
    let mut sure = SureFiles::new(three_files(alloc)?);
    let (too_long, failed) = (ReadError::TooLong, ReadError::Failed);
    let (one, none) = (b"one".as_slice(), b"".as_slice());
    // The first file of a name counts, and the fifth call is to fail.
    for (name, limit, from_some, from_sure) in [
        ("a", 3, Ok(one), Ok(one)),
        ("a", 2, Err(too_long), Err(too_long)),
        ("b", 0, Ok(none), Ok(none)),
        ("c", 3, Err(failed), Ok(none)),
        ("a", 3, Err(failed), Ok(one)),
        ("a", 3, Ok(one), Ok(one)),
    ] {
        let reads = (some.read(alloc, name, limit), sure.read(alloc, name, limit));
        let found = (bytes_of(&reads.0), bytes_of(&reads.1));
        assert_eq!(rt; found, (from_some, from_sure), "{name} {limit}");
    }
    Ok(())
}

#[test]
fn writes_to_a_sink_whose_calls_fail(rt: HostRuntime) -> Result<(), Fail> {
    let alloc = rt.alloc();
    let mut some = MemSink::new(alloc, Seq::from_vec(vec![in alloc; 2, 3]?));
    let wrote = [
        some.write(alloc, b"ab"),
        some.write(alloc, b"cd"),
        some.write(alloc, b""),
    ];
    assert_eq!(rt; wrote, [Ok(2), Err(WriteError::Failed), Ok(0)]);
    assert_eq!(rt; write_all(&mut some, alloc, b"ef"), Ok(()));
    assert_eq!(rt; some.bytes(), b"abef".as_slice());
    Ok(())
}

#[test]
fn writes_to_a_sink_that_never_fails(rt: HostRuntime) {
    let alloc = rt.alloc();
    let mut sure = SureSink::new(alloc);
    let wrote = [sure.write(alloc, b""), sure.write(alloc, b"ab")];
    assert_eq!(rt; wrote, [Ok(0), Ok(2)]);
    assert_eq!(rt; write_all(&mut sure, alloc, b"ef"), Ok(()));
    assert_eq!(rt; sure.bytes(), b"abef".as_slice());
}
