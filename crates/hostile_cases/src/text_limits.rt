//! The limits of specifications and of the term of `eval`.
use crate::calls::Call;
use crate::patterns::{Marked, expanded};
use spike_cli::Status;
use std::alloc::Global;
use std::process::Abort;
use std::test::Fail;

/// Each limit of how much a text declares. A text on the limit is accepted, unless its declarations
/// lack something else. One that passes it is refused at the first word too many, marked by `@`.
const COUNTS: [(&str, &str); 36] = [
    (
        "sort {64 a} = c",
        "accepted sorts 1 constructors 1 functions 0 rules 0 goals 0",
    ),
    ("sort @{65 a} = c", "refused limit at @: name"),
    (
        "{200 sort S$ = c$\n}",
        "accepted sorts 200 constructors 200 functions 0 rules 0 goals 0",
    ),
    (
        "{200 sort S$ = c$\n}@sort S = c",
        "refused limit at @: sorts",
    ),
    (
        "sort S = c{63  | c$}",
        "accepted sorts 1 constructors 64 functions 0 rules 0 goals 0",
    ),
    (
        "sort S = c{63  | c$} | @d",
        "refused limit at @: constructors",
    ),
    (
        "{100 sort S$ = a$ | b$ | c$ | d$ | e$\n}",
        "accepted sorts 100 constructors 500 functions 0 rules 0 goals 0",
    ),
    (
        "{100 sort S$ = a$ | b$ | c$ | d$ | e$\n}sort S = @c",
        "refused limit at @: constructors",
    ),
    (
        "{500 fun f$ : Bool\n}{500 rule f$ = true\n}",
        "accepted sorts 0 constructors 0 functions 500 rules 500 goals 0",
    ),
    (
        "{500 fun f$ : Bool\n}@fun f : Bool",
        "refused limit at @: functions",
    ),
    (
        "sort S = c | d(S{7 , S})",
        "accepted sorts 1 constructors 2 functions 0 rules 0 goals 0",
    ),
    ("sort S = c | d(S{7 , S}, @S)", "refused limit at @: arity"),
    (
        "fun f(Bool{7 , Bool}) : Bool\nrule f(x{7 , x$}) = x",
        "accepted sorts 0 constructors 0 functions 1 rules 1 goals 0",
    ),
    (
        "fun f(Bool{7 , Bool}, @Bool) : Bool",
        "refused limit at @: arity",
    ),
    ("rule f(x{7 , x$}, @y) = x", "refused limit at @: arity"),
    (
        "{500 fun f$(Bool) : Bool\n}{500 rule f$(true) = true\nrule f$(false) = true\n}",
        "accepted sorts 0 constructors 0 functions 500 rules 1000 goals 0",
    ),
    (
        "{1000 rule f = true\n}@rule f = true",
        "refused limit at @: rules",
    ),
    (
        "sort S = c{63  | c$}\nfun f(S) : S\nrule f(c) = c\n{63 rule f(c$) = c\n}",
        "accepted sorts 1 constructors 64 functions 1 rules 64 goals 0",
    ),
    (
        "sort S = c{63  | c$}\nfun f(S) : S\n{64 rule f(c) = c\n}rule @f(c) = c",
        "refused sort at @: too many rules",
    ),
    (
        "fun f(Bool) : Bool\nrule f(x) = true{8  if x}",
        "refused guards: rule 1",
    ),
    (
        "fun f(Bool) : Bool\nrule f(x) = true{8  if x} @if x",
        "refused limit at @: guards",
    ),
    (
        "fun f(Bool) : Bool\nrule f(x) = true{8  if x} @unless x",
        "refused limit at @: guards",
    ),
    (
        "{200 goal g$ : true = true\n}",
        "accepted sorts 0 constructors 0 functions 0 rules 0 goals 200",
    ),
    (
        "{200 goal g$ : true = true\n}@goal g : =>",
        "refused limit at @: goals",
    ),
    (
        "goal g(x : Bool{15 , x$ : Bool}) : x = x",
        "accepted sorts 0 constructors 0 functions 0 rules 0 goals 1",
    ),
    (
        "goal g(x : Bool{15 , x$ : Bool}, @y : Bool) : x = x",
        "refused limit at @: variables",
    ),
    (
        "sort S = c | d(S{7 , S})\ngoal g : d(x{7 , x$}) = d(y{7 , y$})",
        "accepted sorts 1 constructors 2 functions 0 rules 0 goals 1",
    ),
    (
        "sort S = c | d(S{7 , S})\ngoal g : d(x{7 , x$}) = d(y{6 , y$}, d(z, @u{6 , u}))",
        "refused sort at @: too many variables",
    ),
    (
        "goal g : true = true{7 , true = true} =>",
        "accepted sorts 0 constructors 0 functions 0 rules 0 goals 1",
    ),
    (
        "goal g : true = true{7 , true = true}, @true = true =>",
        "refused limit at @: premises",
    ),
    (
        "goal g : => true = true{3  | true = true}",
        "accepted sorts 0 constructors 0 functions 0 rules 0 goals 1",
    ),
    (
        "goal g : => true = true{3  | true = true} | @true = true",
        "refused limit at @: conclusions",
    ),
    (
        "goal g : true = true{3  | true = true}",
        "accepted sorts 0 constructors 0 functions 0 rules 0 goals 1",
    ),
    (
        "goal g : true = true{3  | true = true} | @true = true",
        "refused limit at @: conclusions",
    ),
    (
        "{1048567 #}",
        "accepted sorts 0 constructors 0 functions 0 rules 0 goals 0",
    ),
    ("{1048568 #}", "refused length"),
];

#[test]
fn counts_in_texts(rt: HostRuntime) -> Result<(), Fail> {
    for (declarations, line) in COUNTS {
        check_text(&rt, rt.alloc(), "", declarations, line)?;
    }
    Ok(())
}

/// The limits of terms. What is on a limit is refused for the values that no rule covers.
const TERMS: [(&str, &str); 8] = [
    (
        "goal g : {63 s(}z{63 )} = x",
        "refused coverage: f at (z, z, z, z)",
    ),
    (
        "goal g : {64 s(}@z{64 )} = x",
        "refused limit at @: nesting",
    ),
    (
        "rule f({62 s(}x{62 )}, x0, x1, x2) = x",
        "refused coverage: f at (z, z, z, z)",
    ),
    (
        "rule f({63 s(}@x{63 )}, x0, x1, x2) = x",
        "refused limit at @: nesting",
    ),
    (
        "rule f(d(x{7 , x$}), d(y{7 , y$}), z, z) = x",
        "refused coverage: f at (z, z, z, z)",
    ),
    (
        "rule f(d(x{7 , x$}), d(y{7 , y$}), z, @u) = x",
        "refused sort at @: too many variables",
    ),
    // With its root a left side has 1 + 50 + 50 + 50 + 49 symbols, and one more.
    (
        "rule f({49 s(}z{49 )}, {49 s(}z{49 )}, {49 s(}z{49 )}, {48 s(}z{48 )}) = z",
        "refused coverage: f at (z, z, z, z)",
    ),
    (
        "rule @f({49 s(}z{49 )}, {49 s(}z{49 )}, {49 s(}z{49 )}, {49 s(}z{49 )}) = z",
        "refused sort at @: left side too large",
    ),
];

#[test]
fn terms_in_texts(rt: HostRuntime) -> Result<(), Fail> {
    let head = "sort N = z | s(N) | d(N{7 , N})\nfun f(N, N, N, N) : N\n";
    for (declaration, line) in TERMS {
        check_text(&rt, rt.alloc(), head, declaration, line)?;
    }
    Ok(())
}

/// Compares what `check` says of these declarations.
fn check_text(
    rt: &impl Abort,
    alloc: Global,
    head: &str,
    declarations: &str,
    line: &str,
) -> Result<(), Fail> {
    let pattern = format!(in alloc; "spike 1\n{head}{declarations}\n")?;
    let marked = Marked::of(alloc, pattern.as_str())?;
    let call = Call {
        words: "check spec",
        spec: marked.text.as_str(),
        report: "",
    };
    let status = match line.starts_with("accepted") {
        true => Status::Done,
        false => Status::Refused,
    };
    let wanted = marked.in_line(alloc, line)?;
    let ended = call.ended(alloc)?;
    assert_eq!(rt; ended.status, status, "{declarations}");
    assert_eq!(rt; ended.text.as_str(), wanted.as_str(), "{declarations}");
    Ok(())
}

/// A term has the limits of nesting, arguments and names.
#[test]
fn terms_of_eval(rt: HostRuntime) -> Result<(), Fail> {
    let alloc = rt.alloc();
    let spec = expanded(alloc, "spike 1\nsort N = z | s(N) | d(N{7 , N})\n")?;
    for (term, status, line) in [
        (
            "{63 s(}z{63 )}",
            Status::Done,
            "value {63 s(}z{63 )}\nsteps 0",
        ),
        (
            "{64 s(}@z{64 )}",
            Status::Refused,
            "refused term limit at @: nesting",
        ),
        ("d(z{7 ,z})", Status::Done, "value d(z{7 , z})\nsteps 0"),
        (
            "d(z{7 ,z},@z)",
            Status::Refused,
            "refused term limit at @: arity",
        ),
        (
            "@{64 a}",
            Status::Refused,
            "refused term sort at @: unknown name",
        ),
        ("@{65 a}", Status::Refused, "refused term limit at @: name"),
    ] {
        let marked = Marked::of(alloc, term)?;
        let wanted = marked.in_line(alloc, line)?;
        let words = format!(in alloc; "eval spec {}", marked.text.as_str())?;
        let call = Call {
            words: words.as_str(),
            spec: spec.as_str(),
            report: "",
        };
        let ended = call.ended(alloc)?;
        assert_eq!(rt; ended.status, status, "{term}");
        assert_eq!(rt; ended.text.as_str(), wanted.as_str(), "{term}");
    }
    Ok(())
}
