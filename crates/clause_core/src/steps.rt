//! Places in clauses, steps and blocks.

use term_core::{Name, Seq, Term, VarId};

/// A term in a clause: a premise or a conclusion by its number, which counts from 1, its left or
/// its right side, and a path of argument numbers, which count from 1 too.
#[derive(Drop)]
pub struct Place {
    pub conclusion: bool,
    pub number: u16,
    pub left: bool,
    pub path: Seq<u8>,
}

/// A step of a proof, after Reddy (1990) and SPIKE (Bouhoula and Rusinowitch, 1995), with what
/// is on its line in the order of the line. Numbers of premises, conclusions and rules count
/// from 1, numbers of nodes and variables from 0. A list of terms has one for each variable of the
/// clause that is referred to. The last truth value of `Context`, `Hyp` and `Lemma` is true if
/// the equation is used from left to right.
#[derive(Drop)]
pub enum Step {
    /// The sides of the conclusion are one term.
    Trivial(u16),
    /// The conclusion is the premise.
    Match(u16, u16),
    /// The sides of the premise clash.
    Absurd(u16),
    /// The instance of the node says no less than this clause.
    Subsume(u32, Seq<Term>),
    /// The instance of the goal says no less than this clause.
    ByLemma(Name, Seq<Term>),
    /// The rule rewrites the term at the place, with its guards among the premises.
    Rule(Place, u32),
    /// Each rule of the same left side rewrites the term, with its guards as further premises.
    Case(Place, u32),
    /// The arguments are equated in place of the sides of a conclusion (true) or of a premise.
    Decompose(bool, u16),
    /// The sides of the conclusion clash, and it is left out.
    Clash(u16),
    /// A conclusion (true) or a premise is left out.
    Drop(bool, u16),
    /// The premise equates a variable to a term, which is put for it.
    Solve(u16),
    /// Each pattern is put for the variable.
    Cover(VarId, Seq<Term>),
    /// A fresh variable is put for the term.
    Generalize(Term),
    /// The premise replaces the term at the place.
    Context(Place, u16, bool),
    /// The conclusion of the instance of the node replaces the term at the place.
    Hyp(u32, Seq<Term>, Place, bool),
    /// The conclusion of the instance of the goal replaces the term at the place.
    Lemma(Name, Seq<Term>, Place, bool),
}

/// The steps of a proof, of which each belongs to the node of its number.
#[derive(Drop)]
pub struct Block {
    pub steps: Seq<Step>,
}
