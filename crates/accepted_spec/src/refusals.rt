//! Lines of refusal.

ghost use Rattle.std.specs.Prelude.{◌≡◌, ◌++◌, IfOk, OnOk, codes};
ghost use Rattle.std.specs.Fmt.{decimal};
ghost use Rattle.spec_grammar.specs.Limits.{limit_word as word_of_limit};
ghost use Rattle.sort_check.specs.Texts.{kind_text as text_of_kind};
ghost use Rattle.accepted_spec.specs.Refusals.{subject_text, IsFaultLine, IsSortLine};
ghost use Rattle.accepted_spec.specs.Tellings.{Tells};

use sort_check::{SortFault, SortKind};
use spec_syntax::{LimitKind, SyntaxFault};
use std::alloc::Global;
use std::fmt;
use term_core::OutOfMemory;

/// What a line of refusal is about.
#[derive(Clone, Copy, Debug, PartialEq, Eq)]
pub enum Subject {
    File,
    Term,
}

/// Why a text isn't taken.
#[derive(Drop)]
pub enum Refusal {
    /// The line that says so.
    Line(Vec<u8>),
    OutOfMemory,
}

impl fmt::Display for Refusal {
    fn fmt<W: fmt::Write>(&self, f: &mut fmt::Formatter<W>) -> fmt::Result {
        f.write_str(match self {
            Refusal::Line(_) => "a text isn't taken",
            Refusal::OutOfMemory => "out of memory",
        })
    }
}

impl From<OutOfMemory> for Refusal {
    ghost use Rattle.accepted_spec.specs.declared.refusals.Refusal.TheVariants.{
      OutOfMemory as out_of_memory,
    };

    ghost from_gives = { λ _ refusal. refusal ≡ out_of_memory };

    fn from(_error: OutOfMemory) -> Refusal {
        Refusal::OutOfMemory
    }
}

/// The refusal of a text with this fault.
pub fn syntax_refusal(alloc: Global, subject: Subject, fault: SyntaxFault) -> Refusal
    ensures { Tells (IsFaultLine subject fault) result }
{
    match syntax_line(alloc, subject, fault) {
        Ok(line) => Refusal::Line(line),
        Err(_) => Refusal::OutOfMemory,
    }
}

/// The refusal of a text with this sort fault.
pub fn sort_refusal(alloc: Global, subject: Subject, fault: SortFault) -> Refusal
    ensures { Tells (IsSortLine subject fault) result }
{
    match sort_line(alloc, subject, fault) {
        Ok(line) => Refusal::Line(line),
        Err(_) => Refusal::OutOfMemory,
    }
}

/// The line of a fault. Want of memory has none.
fn syntax_line(alloc: Global, subject: Subject, fault: SyntaxFault) -> Result<Vec<u8>, OutOfMemory>
    ensures { IfOk result (λ line. IsFaultLine subject fault line.items) }
{
    let mut line = Vec::from_slice(alloc, subject_word(subject))?;
    match fault {
        SyntaxFault::Text { at } => {
            line.extend_from_slice(b"text at ")?;
            append_place(alloc, at, &mut line)?;
            line.push(b'\n')?;
        }
        SyntaxFault::Syntax { at } => {
            line.extend_from_slice(b"syntax at ")?;
            append_place(alloc, at, &mut line)?;
            line.push(b'\n')?;
        }
        SyntaxFault::Limit { at, what } => {
            line.extend_from_slice(b"limit at ")?;
            append_place(alloc, at, &mut line)?;
            line.extend_from_slice(b": ")?;
            line.extend_from_slice(limit_word(what))?;
            line.push(b'\n')?;
        }
        SyntaxFault::OutOfMemory => return Err(OutOfMemory),
    }
    Ok(line)
}

/// The line of a sort fault. Want of memory has none.
fn sort_line(alloc: Global, subject: Subject, fault: SortFault) -> Result<Vec<u8>, OutOfMemory>
    ensures { IfOk result (λ line. IsSortLine subject fault line.items) }
{
    let mut line = Vec::from_slice(alloc, subject_word(subject))?;
    match fault {
        SortFault::Sort { at, kind } => {
            line.extend_from_slice(b"sort at ")?;
            append_place(alloc, at, &mut line)?;
            line.extend_from_slice(b": ")?;
            line.extend_from_slice(kind_text(kind))?;
            line.push(b'\n')?;
        }
        SortFault::OutOfMemory => return Err(OutOfMemory),
    }
    Ok(line)
}

fn append_place(alloc: Global, at: usize, line: &mut Vec<u8>) -> Result<(), OutOfMemory>
    ensures { OnOk result (line.new.items ≡ line.old.items ++ decimal at) }
{
    line.extend_from_slice(at.to_string(alloc)?.as_bytes())?;
    Ok(())
}

/// What a line begins with.
fn subject_word(subject: Subject) -> &'static [u8]
    ensures { result.now ≡ subject_text subject }
{
    match subject {
        Subject::File => b"refused ",
        Subject::Term => b"refused term ",
    }
}

/// The word of a limit.
fn limit_word(what: LimitKind) -> &'static [u8]
    ensures { result.now ≡ word_of_limit what }
{
    match what {
        LimitKind::Name => b"name",
        LimitKind::Sorts => b"sorts",
        LimitKind::Constructors => b"constructors",
        LimitKind::Functions => b"functions",
        LimitKind::Arity => b"arity",
        LimitKind::Rules => b"rules",
        LimitKind::Guards => b"guards",
        LimitKind::Goals => b"goals",
        LimitKind::Variables => b"variables",
        LimitKind::Premises => b"premises",
        LimitKind::Conclusions => b"conclusions",
        LimitKind::Nesting => b"nesting",
    }
}

/// The text of a kind of sort fault.
fn kind_text(kind: SortKind) -> &'static [u8]
    ensures { result.now ≡ text_of_kind kind }
{
    match kind {
        SortKind::UnknownName => b"unknown name",
        SortKind::RepeatedName => b"repeated name",
        SortKind::WrongNumberOfArguments => b"wrong number of arguments",
        SortKind::WrongSort => b"wrong sort",
        SortKind::SortNotInferred => b"sort not inferred",
        SortKind::NotOnTheLeft => b"variable not on the left",
        SortKind::DefinedInPattern => b"defined symbol in a pattern",
        SortKind::NoFunction => b"left side is no function",
        SortKind::GuardNotBool => b"guard not Bool",
        SortKind::NoSmallValue => b"no small value",
        SortKind::TooManyVariables => b"too many variables",
        SortKind::LeftTooLarge => b"left side too large",
        SortKind::TooManyRules => b"too many rules",
        SortKind::NotAFunction => b"not a function",
        SortKind::EqualTwice => b"equal twice",
        SortKind::StatusTwice => b"status twice",
        SortKind::NoOrderOfArguments => b"no order of arguments",
        SortKind::EqualOrStatusWithKbo => b"equal or status with kbo",
        SortKind::WrongWeight => b"wrong weight",
    }
}
