//! Specifications and their parts, and verdicts.

use crate::symbols::Signature;
use term_core::{Name, Seq, SortId, Term};

/// What a symbol is declared with: the sorts of its arguments and of its result.
#[derive(Drop)]
pub struct SymInfo {
    pub args: Seq<SortId>,
    pub result: SortId,
}

/// A variable of a rule or goal. Its number is its place among the variables there.
#[derive(Drop)]
pub struct VarInfo {
    pub name: Name,
    pub sort: SortId,
}

#[derive(Drop)]
pub struct Equation {
    pub left: Term,
    pub right: Term,
}

/// A test of sort `Bool`, and whether it is wanted true or false.
#[derive(Drop)]
pub struct Guard {
    pub test: Term,
    pub wanted: bool,
}

/// `left = right`, if each guard gives the Boolean that it wants.
#[derive(Drop)]
pub struct Rule {
    pub vars: Seq<VarInfo>,
    pub left: Term,
    pub right: Term,
    pub guards: Seq<Guard>,
}

/// If all premises hold, some conclusion holds.
#[derive(Drop)]
pub struct Goal {
    pub name: Name,
    pub vars: Seq<VarInfo>,
    pub premises: Seq<Equation>,
    pub conclusions: Seq<Equation>,
}

/// How the terms of a specification are ordered.
#[derive(Drop)]
pub enum OrderInfo {
    /// By the path ordering: the level of each symbol, and the numbers of its arguments, from 1, in
    /// the order in which they are compared.
    Path {
        levels: Seq<u32>,
        statuses: Seq<Seq<u8>>,
    },
    /// By the ordering of Knuth and Bendix: the weight of each symbol.
    Weights {
        weights: Seq<u32>,
    },
}

#[derive(Drop)]
pub struct Spec {
    pub sig: Signature,
    pub order: OrderInfo,
    pub rules: Seq<Rule>,
    pub goals: Seq<Goal>,
}

/// What the sides of a goal say under values and within a budget. `Spent` is the answer if a
/// side that decides has no value within the budget.
#[derive(Clone, Copy, Debug, PartialEq, Eq)]
pub enum Verdict {
    Holds,
    Fails,
    Spent,
}
