//! The limits of clauses in a proof: 64 equations, depth 100 and size 4,000.
use crate::calls::Call;
use crate::patterns::expanded;
use spike_cli::Status;
use std::test::Fail;

/// What the goals are about. Of `f` a term with eight times the argument is made, and of `g` one
/// that is deeper by 59.
const DECLARATIONS: &str = "sort S = c | s(S) | d(S{7 , S}) | e(S{6 , S})\n\
fun f(S) : S\n\
fun g(S) : S\n\
rule f(x) = d(x{7 , x})\n\
rule g(x) = {60 s(}x{60 )}\n";

/// Eight steps, of which the last one is on line 11. Each puts the equations of the arguments in
/// the place of a premise.
const DECOMPOSED: &str = "decompose p1\n\
decompose p9\n\
decompose p17\n\
decompose p25\n\
decompose p33\n\
decompose p41\n\
decompose p49\n\
decompose p57\n";

/// A goal, the steps of a claim on it and their number, and what is answered.
const CLAIMS: [(&str, &str, u32, &str); 6] = [
    // Of eight premises seven become eight equations each, and one becomes seven or eight.
    (
        "{7 d(x, x, x, x, x, x, x, x) = d(x, x, x, x, x, x, x, x), }\
         e(x{6 , x}) = e(x{6 , x}) => x = x",
        DECOMPOSED,
        9,
        "yes: proved 1, refuted 0, open 0",
    ),
    (
        "{7 d(x, x, x, x, x, x, x, x) = d(x, x, x, x, x, x, x, x), }\
         d(x{7 , x}) = d(x{7 , x}) => x = x",
        DECOMPOSED,
        9,
        "no line 11: limit",
    ),
    // A side of depth 41 or 42 becomes one of depth 100 or 101.
    (
        "g({39 s(}x{39 )}) = x => x = x",
        "rule p1.l 2\n",
        2,
        "yes: proved 1, refuted 0, open 0",
    ),
    (
        "g({40 s(}x{40 )}) = x => x = x",
        "rule p1.l 2\n",
        2,
        "no line 4: limit",
    ),
    // The inner call becomes 1 + 8 * 62 = 497 symbols and variables, and the outer one then
    // 1 + 8 * 497 = 3977. Beside it are 21 or 22 on the right, and 2 of the conclusion.
    (
        "f(f({61 s(}x{61 )})) = {20 s(}x{20 )} => x = x",
        "rule p1.l.1 1\nrule p1.l 1\n",
        3,
        "yes: proved 1, refuted 0, open 0",
    ),
    (
        "f(f({61 s(}x{61 )})) = {21 s(}x{21 )} => x = x",
        "rule p1.l.1 1\nrule p1.l 1\n",
        3,
        "no line 5: limit",
    ),
];

#[test]
fn clauses_in_replay(rt: HostRuntime) -> Result<(), Fail> {
    let alloc = rt.alloc();
    for (goal, steps, nodes, line) in CLAIMS {
        let spec = format!(in alloc; "spike 1\n{DECLARATIONS}goal it : {goal}\n")?;
        let claim = format!(in alloc; "proved it nodes {nodes}\n{steps}trivial c1\n")?;
        let report = format!(in alloc; "spike-report 1\nsteps 1000\n{claim}done\n")?;
        let spec = expanded(alloc, spec.as_str())?;
        let call = Call {
            words: "replay spec report",
            spec: spec.as_str(),
            report: report.as_str(),
        };
        let status = match line.starts_with("yes") {
            true => Status::Done,
            false => Status::No,
        };
        let wanted = format!(in alloc; "{line}\n")?;
        let ended = call.ended(alloc)?;
        assert_eq!(rt; ended.status, status, "{goal}");
        assert_eq!(rt; ended.text.as_str(), wanted.as_str(), "{goal}");
    }
    Ok(())
}
