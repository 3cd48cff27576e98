//! `within`: whether a clause keeps the limits of clauses in proofs.

ghost use Rattle.std.specs.Prelude.{◌↔◌, IsTrue};
ghost use Rattle.clause_core.specs.Limits.{IsWithin};

use crate::clauses::Clause;
use crate::standing::is_tidied_within;

/// The most equations of a clause in a proof.
pub const MOST_EQUATIONS: usize = 64;

/// The greatest depth of a clause in a proof.
pub const MOST_LEVELS: u32 = 100;

/// The greatest size of a clause in a proof, and so of a term in one.
pub const MOST_SYMBOLS: u32 = 4000;

/// The most nodes of a block.
pub const MOST_NODES: usize = 10_000;

/// Whether the clause is within the limits of a clause in a proof: 64 equations, depth 100 and
/// size 4,000. No side is walked past the limits.
pub fn within(clause: &Clause) -> bool
    ensures { IsTrue result ↔ IsWithin clause.now }
{
    is_tidied_within(clause).is_some()
}
