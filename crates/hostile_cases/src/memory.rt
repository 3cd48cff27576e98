//! Calls that may find no memory. `rt try --test --fail-alloc N` lets the Nth request for it fail.
use crate::calls::Call;
use crate::texts::{BAD, INSERTION, NOT_LINEAR, OVERLAP, PLUS_ZERO, PLUS_ZERO_REPORT};
use io_core::MemSink;
use spike_cli::Status;
use std::alloc::Global;
use std::process::Abort;
use term_core::Seq;

/// The report of [`PLUS_ZERO`] without its last line.
const CUT: &str = "spike-report 1\n\
steps 1000\n\
proved plus_zero nodes 6\n\
cover ?0 [zero, succ(_)]\n\
rule c1.l 1\n\
rule c1.l 2\n\
trivial c1\n\
decompose c1\n\
subsume 0 [?0]\n";

/// What `refute` writes of [`INSERTION`]. There are three numbers and five lists of depth 3.
const OPEN: &str = "spike-report 1\n\
steps 1000\n\
open le_total depth 3 tried 9 skipped 0 cut no plain 0 nodes 0\n\
open insert_sorted depth 3 tried 15 skipped 0 cut no plain 0 nodes 0\n\
done\n";

/// Commands that prove the goal of [`PLUS_ZERO`], with one that is refused and one that is undone.
const BY_HAND: &str = "goal plus_zero\n\
cover ?0 [zero, succ(_)]\n\
rule c1.l 2\n\
rule c1.l 1\n\
undo\n\
rule c1.l 1\n\
rule c1.l 2\n\
trivial c1\n\
decompose c1\n\
subsume 0 [?0]\n";

/// What `session` writes for them.
const SESSION: &str = "ok 1\n\
ok 2\n\
refused does not fit\n\
ok 2\n\
ok 2\n\
ok 2\n\
ok 2\n\
ok 1\n\
ok 1\n\
ok 0\n\
spike-report 1\n\
steps 1000\n\
proved plus_zero nodes 6\n\
cover ?0 [zero, succ(_)]\n\
rule c1.l 1\n\
rule c1.l 2\n\
trivial c1\n\
decompose c1\n\
subsume 0 [?0]\n\
done\n";

/// The words of a call, its two files, and the status and the text if there is memory.
const CALLS: [(&str, &str, &str, Status, &str); 9] = [
    (
        "eval spec plus(succ(zero),zero)",
        BAD,
        "",
        Status::Done,
        "value succ(zero)\nsteps 2\n",
    ),
    (
        "check spec",
        NOT_LINEAR,
        "",
        Status::Refused,
        "refused linear: rule 1, variable x\n",
    ),
    (
        "check spec",
        OVERLAP,
        "",
        Status::Refused,
        "refused overlap: rules 1 and 2 at (zero, zero)\n",
    ),
    (
        "check spec",
        INSERTION,
        "",
        Status::Done,
        "accepted sorts 2 constructors 4 functions 3 rules 10 goals 2\n",
    ),
    (
        "replay spec report",
        PLUS_ZERO,
        CUT,
        Status::No,
        "no line 10: not a report\n",
    ),
    (
        "replay spec report",
        PLUS_ZERO,
        PLUS_ZERO_REPORT,
        Status::Done,
        "yes: proved 1, refuted 0, open 0\n",
    ),
    ("prove spec", PLUS_ZERO, "", Status::Done, PLUS_ZERO_REPORT),
    ("refute spec", INSERTION, "", Status::Open, OPEN),
    (
        "session spec report",
        PLUS_ZERO,
        BY_HAND,
        Status::Done,
        SESSION,
    ),
];

#[test]
fn want_of_memory_changes_no_answer(rt: HostRuntime) {
    for (words, spec, report, status, text) in CALLS {
        let call = Call {
            words,
            spec,
            report,
        };
        check_answer(&rt, rt.alloc(), call, status, text);
    }
}

/// Makes the call, which ends as it should or finds no memory. Then what it wrote is a prefix. If
/// there is no memory to make the call, that ends it too.
fn check_answer(rt: &impl Abort, alloc: Global, call: Call, status: Status, text: &str) {
    let mut out = MemSink::new(alloc, Seq::new(alloc));
    let ended = call.over(alloc, &mut out);
    if let Err(_) | Ok(Status::OutOfMemory) = ended {
        assert!(rt; text.as_bytes().starts_with(out.bytes()));
        return;
    }
    assert_eq!(rt; ended, Ok(status));
    assert_eq!(rt; out.bytes(), text.as_bytes());
}
