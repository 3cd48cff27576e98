//! Sort faults and their kinds.

ghost use Rattle.sort_check.specs.declared.faults.SortFault.TheVariants.{Sort};
ghost use Rattle.sort_check.specs.declared.faults.SortFault.TheVariants.{
  OutOfMemory as out_of_memory,
};
ghost use Rattle.std.specs.Prelude.{◌≡◌};

use std::error::Error;
use std::fmt;
use term_core::OutOfMemory;

/// The kinds of sort fault.
#[derive(Clone, Copy, Debug, PartialEq, Eq)]
pub enum SortKind {
    /// No sort, symbol, variable or ordering has this name.
    UnknownName,
    RepeatedName,
    WrongNumberOfArguments,
    WrongSort,
    /// A variable of a goal to which nothing gives a sort.
    SortNotInferred,
    /// A variable of a right side or guard that isn't on the left side.
    NotOnTheLeft,
    /// A function inside a left side.
    DefinedInPattern,
    /// The root of a left side is a variable or a constructor.
    NoFunction,
    GuardNotBool,
    /// A sort without a value of at most 255 symbols.
    NoSmallValue,
    /// The 17th variable of a rule or goal.
    TooManyVariables,
    /// A left side of more than 200 symbols and variables.
    LeftTooLarge,
    /// The 65th rule of a function, or in format 2 the 129th.
    TooManyRules,
    /// A constructor in an equal or status line.
    NotAFunction,
    /// A function that comes earlier in an equal line.
    EqualTwice,
    /// A function with an earlier status line.
    StatusTwice,
    /// Numbers of a status line that aren't each of 1 to the number of arguments once.
    NoOrderOfArguments,
    /// An ordering by weights beside an equal or status line.
    EqualOrStatusWithKbo,
    /// A weight of 0, or of more than 1000.
    WrongWeight,
}

impl fmt::Display for SortKind {
    ghost use Rattle.std.specs.Prelude.{Some};
    ghost use Rattle.sort_check.specs.Texts.{kind_text};

    ghost output = { λ kind. Some (kind_text kind) };

    fn fmt<W: fmt::Write>(&self, f: &mut fmt::Formatter<W>) -> fmt::Result {
        f.write_str(match self {
            SortKind::UnknownName => "unknown name",
            SortKind::RepeatedName => "repeated name",
            SortKind::WrongNumberOfArguments => "wrong number of arguments",
            SortKind::WrongSort => "wrong sort",
            SortKind::SortNotInferred => "sort not inferred",
            SortKind::NotOnTheLeft => "variable not on the left",
            SortKind::DefinedInPattern => "defined symbol in a pattern",
            SortKind::NoFunction => "left side is no function",
            SortKind::GuardNotBool => "guard not Bool",
            SortKind::NoSmallValue => "no small value",
            SortKind::TooManyVariables => "too many variables",
            SortKind::LeftTooLarge => "left side too large",
            SortKind::TooManyRules => "too many rules",
            SortKind::NotAFunction => "not a function",
            SortKind::EqualTwice => "equal twice",
            SortKind::StatusTwice => "status twice",
            SortKind::NoOrderOfArguments => "no order of arguments",
            SortKind::EqualOrStatusWithKbo => "equal or status with kbo",
            SortKind::WrongWeight => "wrong weight",
        })
    }
}

/// Why a raw specification stands for none. `at` is the place of the word that is at fault, in
/// bytes of the text from 0.
#[derive(Clone, Copy, Debug, PartialEq, Eq)]
pub enum SortFault {
    Sort { at: usize, kind: SortKind },
    OutOfMemory,
}

impl fmt::Display for SortFault {
    ghost use Rattle.std.specs.Prelude.{Some};
    ghost use Rattle.sort_check.specs.Texts.{fault_text};

    ghost output = { λ fault. Some (fault_text fault) };

    fn fmt<W: fmt::Write>(&self, f: &mut fmt::Formatter<W>) -> fmt::Result {
        match self {
            SortFault::Sort { at, kind } => write!(f, "sort at {at}: {kind}"),
            SortFault::OutOfMemory => f.write_str("out of memory"),
        }
    }
}

impl Error for SortFault {}

impl From<OutOfMemory> for SortFault {
    ghost from_gives = { λ _ e. e ≡ out_of_memory };

    fn from(_error: OutOfMemory) -> SortFault {
        SortFault::OutOfMemory
    }
}

/// The place of a term, which decides what its words may be.
#[derive(Clone, Copy, Debug, PartialEq, Eq)]
pub(crate) enum Part {
    /// Inside a left side: constructors, and variables that may be new.
    Left,
    /// A right side or a guard: symbols, and the variables of the left side.
    Right,
    /// A side of a goal: symbols, and variables that may be new.
    Goal,
    /// A term without variables.
    Ground,
}

/// The fault of this kind at this place.
pub(crate) fn fault(at: usize, kind: SortKind) -> SortFault
    ensures { result ≡ Sort at kind }
{
    SortFault::Sort { at, kind }
}
