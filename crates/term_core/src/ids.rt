//! Numbers of sorts, symbols and variables, each a type of its own.

/// A sort, by its place among the sorts of a signature. `Bool` is 0.
#[derive(Clone, Copy, Debug, PartialEq, Eq)]
pub struct SortId(pub u32);

/// A constructor or a function, by its place in the table of a signature. `true` is 0 and `false`
/// is 1. It is also the symbol's level in a path ordering that gives it no other one.
#[derive(Clone, Copy, Debug, PartialEq, Eq)]
pub struct SymId(pub u32);

/// A variable, by its place among the variables of its rule, goal or clause.
#[derive(Clone, Copy, Debug, PartialEq, Eq)]
pub struct VarId(pub u32);
