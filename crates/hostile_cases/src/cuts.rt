//! Texts that are cut anywhere.
use crate::calls::Call;
use crate::texts::{INSERTION, PLUS_ZERO, PLUS_ZERO_REPORT};
use spike_cli::Status;
use std::alloc::Global;
use std::process::Abort;
use std::test::Fail;

/// A report that is cut isn't one at its last line, whether or not the line has begun.
#[test]
fn cut_reports(rt: HostRuntime) -> Result<(), Fail> {
    let alloc = rt.alloc();
    let mut cut = String::new(alloc);
    for next in PLUS_ZERO_REPORT.chars() {
        let call = Call {
            words: "replay spec report",
            spec: PLUS_ZERO,
            report: cut.as_str(),
        };
        let line = format!(in alloc; "no line {}: not a report\n", 1 + cut.matches('\n').count())?;
        let ended = call.ended(alloc)?;
        assert_eq!(rt; ended.status, Status::No, "{cut}");
        assert_eq!(rt; ended.text.as_str(), line.as_str(), "{cut}");
        cut.push(next)?;
    }
    Ok(())
}

/// The text of insertion in parts, each with whether the text is accepted if it is cut after any
/// byte of the part. It is accepted if its last declaration is whole and its rules cover each
/// list of values of each function. A declaration may be whole before its end: the last constructor
/// may be cut or lack its arguments, a constant that is cut is a variable, and nothing need follow
/// after `=>`. Between the first function and the last rule the text covers all values just once,
/// before the last rule but one gets its guard.
const PARTS: [(&str, bool); 30] = [
    ("spike ", false),
    ("1\n", true),
    ("sort Nat = ", false),
    ("zero ", true),
    ("| ", false),
    ("succ", true),
    ("(Nat", false),
    (")\n", true),
    ("sort List = ", false),
    ("nil ", true),
    ("| ", false),
    ("cons", true),
    ("(Nat, List", false),
    (")\n", true),
    (
        "fun le(Nat, Nat) : Bool\n\
         fun sorted(List) : Bool\n\
         fun insert(Nat, List) : List\n\
         rule le(zero, y) = true\n\
         rule le(succ(x), zero) = false\n\
         rule le(succ(x), succ(y)) = le(x, y)\n\
         rule sorted(nil) = true\n\
         rule sorted(cons(x, nil)) = true\n\
         rule sorted(cons(x, cons(y, l))) = sorted(cons(y, l)) if le(x, y)\n\
         rule sorted(cons(x, cons(y, l))) = false unless le(x, y)\n\
         rule insert(x, nil) = cons(x, nil)\n\
         rule insert(x, cons(y, l)) = cons(x, cons(y, l)",
        false,
    ),
    (") ", true),
    (
        "if le(x, y)\n\
         rule insert(x, cons(y, l)) = cons(y, insert(x, l)) unless le(x, y",
        false,
    ),
    (")\n", true),
    ("goal le_total : le(x, y) = ", false),
    ("false ", true),
    ("=", false),
    ("> ", true),
    ("le(y, x) = ", false),
    ("true\n", true),
    ("goal insert_sorted : sorted(l) = ", false),
    ("true ", true),
    ("=", false),
    ("> ", true),
    ("sorted(insert(x, l)) = ", false),
    ("true\n", true),
];

#[test]
fn cut_specifications(rt: HostRuntime) -> Result<(), Fail> {
    let alloc = rt.alloc();
    let mut cut = String::new(alloc);
    check_cut(&rt, alloc, cut.as_str(), false)?;
    for (part, accepted) in PARTS {
        check_part(&rt, alloc, part, accepted, &mut cut)?;
    }
    assert_eq!(rt; cut.as_str(), INSERTION);
    Ok(())
}

/// Appends a part to the text byte by byte, and compares what `check` says after each.
fn check_part(
    rt: &impl Abort,
    alloc: Global,
    part: &str,
    accepted: bool,
    cut: &mut String,
) -> Result<(), Fail> {
    for next in part.chars() {
        cut.push(next)?;
        check_cut(rt, alloc, cut.as_str(), accepted)?;
    }
    Ok(())
}

fn check_cut(rt: &impl Abort, alloc: Global, spec: &str, accepted: bool) -> Result<(), Fail> {
    let call = Call {
        words: "check spec",
        spec,
        report: "",
    };
    let (status, first) = match accepted {
        true => (Status::Done, "accepted "),
        false => (Status::Refused, "refused "),
    };
    let ended = call.ended(alloc)?;
    assert_eq!(rt; ended.status, status, "{spec}");
    assert!(rt; ended.text.starts_with(first), "{spec}");
    Ok(())
}
