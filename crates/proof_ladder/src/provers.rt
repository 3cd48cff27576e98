//! `Prover`: a way to prove a goal, with its limits.

use freer_search::FreerBounds;
use proof_search::Limits;

/// A way to prove a goal. All limits are counts.
#[derive(Clone, Copy)]
pub enum Prover {
    /// By cases of one variable, normal forms and the goal's own instances.
    Plain,
    /// By the first possible step at each node.
    Routine(Limits),
    /// By a search that tries other steps too.
    Freer(FreerBounds),
}
