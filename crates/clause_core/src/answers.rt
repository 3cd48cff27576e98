//! What a step makes, and why it isn't defined.

ghost use Rattle.std.specs.Prelude.{◌≡◌};
ghost use Rattle.clause_core.specs.declared.answers.RewriteError.TheVariants.{
  OutOfMemory as out_of_memory,
};

use crate::clauses::{Clause, Relation};
use std::fmt;
use term_core::{OutOfMemory, Seq};

/// Why a step isn't defined at a node: the first condition of its row that isn't met.
#[derive(Clone, Copy, Debug, PartialEq, Eq)]
pub enum Why {
    /// No node with this number is made so far.
    NoSuchNode,
    /// The clause has no such premise or conclusion, or its side has no such subterm.
    NoSuchPlace,
    /// The specification has no rule with this number.
    NoSuchRule,
    /// The equations or terms aren't of the form that the step asks for.
    DoesNotFit,
    /// No goal of this name may be used.
    NotProvedBefore,
    /// A list of terms or patterns has not the right length or sorts, or a variable isn't there.
    Sort,
    /// Some value of the variable's sort is an instance of no pattern.
    NotCovering,
    /// An instance or a child passes a limit of clauses, or the block the limit of nodes.
    Limit,
}

/// A child of a node, tidied, and how the node compares with it.
#[derive(Drop)]
pub struct Child {
    pub clause: Clause,
    pub relation: Relation,
}

/// A node that is referred to by its number, which counts from 0, and how the node that refers
/// compares with the instance of it.
#[derive(Drop)]
pub struct Reference {
    pub node: u32,
    pub relation: Relation,
}

/// What a step makes: children in their order, which take the next free numbers, and references.
#[derive(Drop)]
pub struct Children {
    pub clauses: Seq<Child>,
    pub refs: Seq<Reference>,
}

/// Why a term of a clause isn't rewritten by a rule: the reasons of `Rule` and `Case` that don't
/// depend on a block, and want of memory.
#[derive(Clone, Copy, Debug, PartialEq, Eq)]
pub enum RewriteError {
    NoSuchPlace,
    NoSuchRule,
    DoesNotFit,
    Limit,
    OutOfMemory,
}

impl From<OutOfMemory> for RewriteError {
    ghost from_gives = { λ _ e. e ≡ out_of_memory };

    fn from(_error: OutOfMemory) -> RewriteError {
        RewriteError::OutOfMemory
    }
}

impl fmt::Display for RewriteError {
    fn fmt<W: fmt::Write>(&self, f: &mut fmt::Formatter<W>) -> fmt::Result {
        f.write_str(match self {
            RewriteError::NoSuchPlace => "the clause has no such place",
            RewriteError::NoSuchRule => "the specification has no rule of this number",
            RewriteError::DoesNotFit => "the rule doesn't rewrite the term there",
            RewriteError::Limit => "a clause passes a limit",
            RewriteError::OutOfMemory => "out of memory",
        })
    }
}
