//! Raw specifications and their parts.

use crate::terms::RawTerm;
use term_core::{Name, Seq};

/// A name and its place in the text, in bytes from 0.
#[derive(Drop)]
pub struct RawName {
    pub name: Name,
    pub at: usize,
}

/// A name with its place, and the names in parentheses after it.
#[derive(Drop)]
pub struct RawNames {
    pub name: Name,
    pub at: usize,
    pub args: Seq<RawName>,
}

/// `sort HEAD = constructor | constructor`
#[derive(Drop)]
pub struct RawSort {
    pub head: RawName,
    pub constructors: Seq<RawNames>,
}

/// `fun HEAD : RESULT`
#[derive(Drop)]
pub struct RawFun {
    pub head: RawNames,
    pub result: RawName,
}

/// `equal NAME, NAME`, whose names are functions of one level.
#[derive(Drop)]
pub struct RawEqual {
    pub names: Seq<RawName>,
}

/// `status HEAD(2, 1)`: the numbers of the arguments, from 1, in the order in which they are
/// compared.
#[derive(Drop)]
pub struct RawStatus {
    pub head: RawName,
    pub numbers: Seq<u32>,
}

/// `NAME = 2`: the weight of a symbol.
#[derive(Drop)]
pub struct RawWeight {
    pub name: RawName,
    pub weight: u32,
}

/// `order NAME : weight, weight`: the name of an ordering, and the weights of symbols.
#[derive(Drop)]
pub struct RawOrder {
    pub name: RawName,
    pub weights: Seq<RawWeight>,
}

/// `LEFT = RIGHT`
#[derive(Drop)]
pub struct RawEq {
    pub left: RawTerm,
    pub right: RawTerm,
}

/// `if TEST`, which wants it true, or `unless TEST`, which wants it false.
#[derive(Drop)]
pub struct RawGuard {
    pub test: RawTerm,
    pub wanted: bool,
}

/// `rule LEFT = RIGHT` and its guards.
#[derive(Drop)]
pub struct RawRule {
    pub left: RawTerm,
    pub right: RawTerm,
    pub guards: Seq<RawGuard>,
}

/// `NAME : SORT`
#[derive(Drop)]
pub struct RawBind {
    pub name: RawName,
    pub sort: RawName,
}

/// `goal HEAD(binds) : premises => conclusions`
#[derive(Drop)]
pub struct RawGoal {
    pub head: RawName,
    pub binds: Seq<RawBind>,
    pub premises: Seq<RawEq>,
    pub conclusions: Seq<RawEq>,
}

/// The number of a text's format, and its declarations in their order.
#[derive(Drop)]
pub struct RawSpec {
    pub version: u32,
    pub sorts: Seq<RawSort>,
    pub funs: Seq<RawFun>,
    pub equals: Seq<RawEqual>,
    pub statuses: Seq<RawStatus>,
    pub order: Option<RawOrder>,
    pub rules: Seq<RawRule>,
    pub goals: Seq<RawGoal>,
}
