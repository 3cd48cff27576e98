//! The tokens that the grammar writes out.

/// A token that the grammar writes out: a reserved word or a sign.
#[derive(Clone, Copy, Debug, PartialEq, Eq)]
pub enum Key {
    Spike,
    Sort,
    Fun,
    Rule,
    Goal,
    If,
    Unless,
    Equal,
    Status,
    Order,
    LeftPar,
    RightPar,
    Comma,
    Colon,
    Equals,
    Bar,
    Arrow,
    /// `_`, which is no name and occurs nowhere.
    Stray,
}
