//! The limits of reports.
use crate::calls::Call;
use crate::patterns::expanded;
use spike_cli::Status;
use std::test::Fail;

/// What reports are about.
const SPEC: &str = "spike 1\n\
sort N = z | s(N)\n\
goal same(x : N) : x = x\n\
goal bad : x = z\n";

/// The number of steps, the claims, and what is answered. A claim's first line is line 3. Of the
/// lines of 300,000 bytes the first has 20, `subsume` has 16 and four for each `, ?0`, and
/// `trivial` has 11; `subsume` gets too many terms.
const CLAIMS: [(u32, &str, &str); 15] = [
    (100_000, "", "yes: proved 0, refuted 0, open 0"),
    (100_001, "", "no line 2: not a report"),
    (
        1000,
        "proved same nodes 10000\n{9999 cover ?0 [_]\n}trivial c1\n",
        "yes: proved 1, refuted 0, open 0",
    ),
    (
        1000,
        "proved same nodes 10001\n{10000 cover ?0 [_]\n}trivial c1\n",
        "no line 3: not a report",
    ),
    // The last but one step makes nodes 10,000 and 10,001.
    (
        1000,
        "proved same nodes 10000\n{9998 cover ?0 [_]\n}cover ?0 [z, s(_)]\ntrivial c1\n",
        "no line 10002: limit",
    ),
    (
        1000,
        "proved same nodes 1\ngeneralize {99 s(}?0{99 )}\n",
        "no line 4: does not fit",
    ),
    (
        1000,
        "proved same nodes 1\ngeneralize {100 s(}?0{100 )}\n",
        "no line 4: not a report",
    ),
    (
        1000,
        "refuted bad index 0 with 1\nx = {99 s(}z{99 )}\n",
        "yes: proved 0, refuted 1, open 0",
    ),
    (
        1000,
        "refuted bad index 0 with 1\nx = {100 s(}z{100 )}\n",
        "no line 4: not a report",
    ),
    (
        1000,
        "proved same nodes 1\nsubsume 0 [?10{74991 , ?0}]\n",
        "no line 4: sort",
    ),
    (
        1000,
        "proved same nodes 1\nsubsume 0 [?100{74991 , ?0}]\n",
        "no line 4: not a report",
    ),
    (
        1000,
        "proved same nodes 2\nsubsume 0 [?100{74988 , ?0}]\ntrivial c1\n",
        "no line 4: sort",
    ),
    (
        1000,
        "proved same nodes 2\nsubsume 0 [?1000{74988 , ?0}]\ntrivial c1\n",
        "no line 5: not a report",
    ),
    (
        1000,
        "refuted bad index 0 with 16\n{16 x$ = z\n}",
        "no line 3: variables",
    ),
    (
        1000,
        "refuted bad index 0 with 17\n{17 x$ = z\n}",
        "no line 3: not a report",
    ),
];

#[test]
fn claims_in_reports(rt: HostRuntime) -> Result<(), Fail> {
    let alloc = rt.alloc();
    for (steps, claims, line) in CLAIMS {
        let pattern = format!(in alloc; "spike-report 1\nsteps {steps}\n{claims}done\n")?;
        let report = expanded(alloc, pattern.as_str())?;
        let call = Call {
            words: "replay spec report",
            spec: SPEC,
            report: report.as_str(),
        };
        let status = match line.starts_with("yes") {
            true => Status::Done,
            false => Status::No,
        };
        let wanted = format!(in alloc; "{line}\n")?;
        let ended = call.ended(alloc)?;
        assert_eq!(rt; ended.status, status, "{steps}, {claims}");
        assert_eq!(rt; ended.text.as_str(), wanted.as_str(), "{steps}, {claims}");
    }
    Ok(())
}

/// A report of 64 MiB is read, and one of a byte more isn't.
#[test]
fn lengths_of_reports(rt: HostRuntime) -> Result<(), Fail> {
    let alloc = rt.alloc();
    let mebibyte = "no line\n".repeat(alloc, 131_072)?;
    let mut report = mebibyte.repeat(alloc, 64)?;
    assert_eq!(rt; report.len(), 67_108_864);
    for (status, line) in [
        (Status::No, "no line 1: not a report\n"),
        (Status::Refused, "refused report length\n"),
    ] {
        let call = Call {
            words: "replay spec report",
            spec: SPEC,
            report: report.as_str(),
        };
        let ended = call.ended(alloc)?;
        assert_eq!(rt; (ended.status, ended.text.as_str()), (status, line));
        report.push('\n')?;
    }
    Ok(())
}
