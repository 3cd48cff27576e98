//! The limits, as constants and as functions of the format, and their kinds with the word of
//! each.

ghost use Rattle.std.specs.Prelude.{◌≡◌};
ghost use Rattle.spec_grammar.specs.Limits.{file_limit as most_bytes, most_constructors};
ghost use Rattle.spec_grammar.specs.Limits.{most_functions, most_rules};

use std::fmt;

/// The most bytes of a file of any format; [`file_limit`] has the limit of one file.
pub const MAX_FILE_BYTES: usize = 4_194_304;

/// The most bytes of a name.
pub const MAX_NAME_BYTES: usize = 64;

/// The most sorts of a specification.
pub const MAX_SORTS: usize = 200;

/// The most constructors of one sort.
pub const MAX_SORT_CONSTRUCTORS: usize = 64;

/// The most arguments of a word, and the most argument sorts of a symbol.
pub const MAX_ARGUMENTS: usize = 8;

/// The greatest depth of a term; a word alone has the depth 1.
pub const MAX_DEPTH: usize = 64;

/// The most guards of a rule.
pub const MAX_GUARDS: usize = 8;

/// The most goals of a specification.
pub const MAX_GOALS: usize = 200;

/// The most bindings of a goal.
pub const MAX_VARIABLES: usize = 16;

/// The most premises of a goal.
pub const MAX_PREMISES: usize = 8;

/// The most conclusions of a goal.
pub const MAX_CONCLUSIONS: usize = 4;

/// The most constructors of all sorts, in a text of this format.
pub fn max_constructors(version: u32) -> usize
    ensures { result ≡ most_constructors version }
{
    if version == 2 { 1000 } else { 500 }
}

/// The most functions of a specification, in a text of this format.
pub fn max_functions(version: u32) -> usize
    ensures { result ≡ most_functions version }
{
    if version == 2 { 1000 } else { 500 }
}

/// The most rules of a specification, in a text of this format.
pub fn max_rules(version: u32) -> usize
    ensures { result ≡ most_rules version }
{
    if version == 2 { 4000 } else { 1000 }
}

/// The most bytes of a file that begins like this: more if it begins with `spike 2`.
pub fn file_limit(bytes: &[u8]) -> usize
    ensures { result ≡ most_bytes bytes.now }
{
    if bytes.starts_with(b"spike 2") {
        MAX_FILE_BYTES
    } else {
        1_048_576
    }
}

/// Which limit of the grammar a token passes.
#[derive(Clone, Copy, Debug, PartialEq, Eq)]
pub enum LimitKind {
    /// A name of more than [`MAX_NAME_BYTES`].
    Name,
    /// More than [`MAX_SORTS`].
    Sorts,
    /// More than [`MAX_SORT_CONSTRUCTORS`] of one sort, or more than [`max_constructors`] in all.
    Constructors,
    /// More than [`max_functions`].
    Functions,
    /// More than [`MAX_ARGUMENTS`].
    Arity,
    /// More than [`max_rules`].
    Rules,
    /// More than [`MAX_GUARDS`] of a rule.
    Guards,
    /// More than [`MAX_GOALS`].
    Goals,
    /// More than [`MAX_VARIABLES`] of a goal.
    Variables,
    /// More than [`MAX_PREMISES`] of a goal.
    Premises,
    /// More than [`MAX_CONCLUSIONS`] of a goal.
    Conclusions,
    /// A term of a depth of more than [`MAX_DEPTH`].
    Nesting,
}

impl fmt::Display for LimitKind {
    ghost use Rattle.std.specs.Prelude.{Some};
    ghost use Rattle.spec_grammar.specs.Limits.{limit_word};

    ghost output = { λ what. Some (limit_word what) };

    fn fmt<W: fmt::Write>(&self, f: &mut fmt::Formatter<W>) -> fmt::Result {
        f.write_str(match self {
            LimitKind::Name => "name",
            LimitKind::Sorts => "sorts",
            LimitKind::Constructors => "constructors",
            LimitKind::Functions => "functions",
            LimitKind::Arity => "arity",
            LimitKind::Rules => "rules",
            LimitKind::Guards => "guards",
            LimitKind::Goals => "goals",
            LimitKind::Variables => "variables",
            LimitKind::Premises => "premises",
            LimitKind::Conclusions => "conclusions",
            LimitKind::Nesting => "nesting",
        })
    }
}
