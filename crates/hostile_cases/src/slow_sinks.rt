//! Sinks that take few bytes at a time, or are interrupted.
use crate::calls::Call;
use crate::sinks::{ByteSink, Interrupted};
use crate::texts::{BAD, INSERTION, PLUS_ZERO};
use io_core::StdSink;
use spike_cli::Status;
use std::test::Fail;

/// Proves what these specifications say, of a goal that is proved, one that is refuted, and two
/// that are proved by induction over a definition with guards.
fn calls() -> [(Call<'static>, Status); 3] {
    [
        (proving(PLUS_ZERO), Status::Done),
        (proving(BAD), Status::Refuted),
        (proving(INSERTION), Status::Done),
    ]
}

fn proving(spec: &'static str) -> Call<'static> {
    Call {
        words: "prove spec",
        spec,
        report: "",
    }
}

#[test]
fn a_sink_of_single_bytes_changes_nothing(rt: HostRuntime) -> Result<(), Fail> {
    let alloc = rt.alloc();
    for (call, status) in calls() {
        let whole = call.ended(alloc)?;
        let mut out = ByteSink::new(alloc, 0)?;
        let ended = call.over(alloc, &mut out)?;
        assert_eq!(rt; (ended, whole.status), (status, status));
        assert_eq!(rt; out.bytes(), whole.text.as_bytes());
    }
    Ok(())
}

/// A hundred interruptions are forgiven before each byte is taken, and one more is a fault.
#[test]
fn interruptions_change_nothing(rt: HostRuntime) -> Result<(), Fail> {
    let alloc = rt.alloc();
    for (call, status) in calls() {
        let whole = call.ended(alloc)?;
        for (interruptions, wanted, text) in [
            (1, status, whole.text.as_str()),
            (100, status, whole.text.as_str()),
            (101, Status::WriteFault, ""),
        ] {
            let mut writer = Interrupted::new(alloc, interruptions);
            let ended = call.over(alloc, &mut StdSink::new(&mut writer))?;
            assert_eq!(rt; ended, wanted, "{interruptions} interruptions");
            assert_eq!(rt; writer.bytes.as_slice(), text.as_bytes());
        }
    }
    Ok(())
}
