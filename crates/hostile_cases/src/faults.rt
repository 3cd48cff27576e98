//! Calls whose reads and writes fail.
use crate::calls::{Call, one_number};
use crate::sinks::ByteSink;
use crate::texts::{BAD, DONE, EMPTY, HEADER, PLUS_ZERO, PROVED, REFUTED};
use io_core::MemSink;
use spike_cli::Status;
use std::alloc::Global;
use std::process::Abort;
use std::test::Fail;
use term_core::{OutOfMemory, Seq};

/// If a read fails, or no file has the name, nothing is written. The read after the last one
/// isn't made.
#[test]
fn nothing_is_written_where_a_read_fails(rt: HostRuntime) -> Result<(), Fail> {
    let alloc = rt.alloc();
    for (words, read, status) in [
        ("check spec", 1, Status::ReadFault),
        ("check spec", 2, Status::Done),
        ("eval spec zero", 1, Status::ReadFault),
        ("eval spec zero", 2, Status::Done),
        ("prove spec", 1, Status::ReadFault),
        ("prove spec", 2, Status::Refuted),
        ("refute spec", 1, Status::ReadFault),
        ("refute spec", 2, Status::Refuted),
        ("replay spec report", 1, Status::ReadFault),
        ("replay spec report", 2, Status::ReadFault),
        ("replay spec report", 3, Status::No),
        ("session spec report", 1, Status::ReadFault),
        ("session spec report", 2, Status::ReadFault),
        ("session spec report", 3, Status::Done),
        ("check missing", 0, Status::ReadFault),
        ("replay spec missing", 0, Status::ReadFault),
        ("session spec missing", 0, Status::ReadFault),
        ("load 1", 1, Status::Done),
    ] {
        let call = Call {
            words,
            spec: BAD,
            report: "",
        };
        let mut out = MemSink::new(alloc, Seq::new(alloc));
        let ended = call.with_read_failing(alloc, read, &mut out)?;
        assert_eq!(rt; ended, status, "{words}, read {read}");
        assert_eq!(rt;
            out.bytes().is_empty(),
            status == Status::ReadFault,
            "{words}, read {read}"
        );
    }
    Ok(())
}

/// A report is written in pieces: its first two lines, each claim as soon as it is found, and the
/// last line. If a write fails the pieces before it were written. The texts are by hand.
#[test]
fn pieces_before_a_failing_write_are_written(rt: HostRuntime) -> Result<(), Fail> {
    let load = "load 1: proved 1, refuted 0, open 0\nreplay: yes\n";
    let no_claims = "spike-report 1\nsteps 1000\ndone\n";
    let cases: [(&str, &str, &[&str], Status); 7] = [
        ("prove spec", EMPTY, &[HEADER, DONE], Status::Done),
        (
            "prove spec",
            PLUS_ZERO,
            &[HEADER, PROVED, DONE],
            Status::Done,
        ),
        ("prove spec", BAD, &[HEADER, REFUTED, DONE], Status::Refuted),
        (
            "refute spec",
            BAD,
            &[HEADER, REFUTED, DONE],
            Status::Refuted,
        ),
        (
            "check",
            BAD,
            &["usage: spike check|eval|prove|refute|replay|load|upgrade|trim|session\n"],
            Status::Usage,
        ),
        ("load 1", "", &[load], Status::Done),
        ("session spec report", BAD, &[no_claims], Status::Done),
    ];
    for (words, spec, pieces, status) in cases {
        let call = Call {
            words,
            spec,
            report: "",
        };
        check_pieces(&rt, rt.alloc(), call, pieces, status)?;
    }
    Ok(())
}

/// Lets each write fail in turn, and none.
fn check_pieces(
    rt: &impl Abort,
    alloc: Global,
    call: Call,
    pieces: &[&str],
    status: Status,
) -> Result<(), OutOfMemory> {
    let mut written = String::new(alloc);
    for (number, piece) in (1u64..).zip(pieces) {
        let mut out = MemSink::new(alloc, one_number(alloc, number)?);
        let ended = call.over(alloc, &mut out)?;
        assert_eq!(rt; ended, Status::WriteFault, "write {number}");
        assert_eq!(rt; out.bytes(), written.as_bytes(), "write {number}");
        check_bytes(rt, alloc, call, written.as_str(), piece)?;
        written.push_str(piece)?;
    }
    let mut out = MemSink::new(alloc, one_number(alloc, pieces.len() as u64 + 1)?);
    let ended = call.over(alloc, &mut out)?;
    assert_eq!(rt; ended, status);
    assert_eq!(rt; out.bytes(), written.as_bytes());
    Ok(())
}

/// Lets the write of each byte of a piece fail in turn, by a sink that takes one byte a call.
fn check_bytes(
    rt: &impl Abort,
    alloc: Global,
    call: Call,
    before: &str,
    piece: &str,
) -> Result<(), OutOfMemory> {
    let mut written = String::from_str(alloc, before)?;
    for next in piece.chars() {
        let number = written.len() as u64 + 1;
        let mut out = ByteSink::new(alloc, number)?;
        let ended = call.over(alloc, &mut out)?;
        assert_eq!(rt; ended, Status::WriteFault, "byte {number}");
        assert_eq!(rt; out.bytes(), written.as_bytes(), "byte {number}");
        written.push(next)?;
    }
    Ok(())
}
