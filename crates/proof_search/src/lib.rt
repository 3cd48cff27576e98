//! The search for a routine proof: the first one of a goal over lemmas, or one whose block keeps
//! limits, and the nodes at which the search stops.
//!
//! Uses routine_proof, which says what routine blocks and proofs are. The specification comes
//! with the order that admits it (`Admitted` of spec_admit). `children` of inference_rules takes
//! steps, acceptance says when they prove a clause, and proof_script how long a claim's text is.
//! For each start of a goal it builds the one block that can be routine, and of these it answers
//! the first that is a proof. If the block without a split begins with the cover of a variable,
//! the split at this variable is the same start, and is passed over.
//!
//! `choosing.rt` finds the step that a node takes. It goes through the entries of the list in
//! their order; each kind has a file. What can't fit is passed over before the table of steps is
//! asked: rules of another function, clauses whose symbols differ, and a side of an equation that
//! the other side is above. What each node would ask again is found once: which equation of a
//! node leads, when the node is added, and of a lemma, for a whole goal (`leading_places.rt`);
//! which sides of lemmas may fall, for a whole goal, and of node 0, when a block begins
//! (`falling_sides.rt`). A lemma that permutes, as plus(x, y) = plus(y, x), rewrites from its
//! left side alone.
//!
//! Proved: `guided`, for every order: the first routine proof of an admitted specification's goal
//! over lemmas, with at most a given number of nodes, and Unfinished exactly where it has none.
//! The claim that its block proves the goal is accepted after any claims that prove the lemmas
//! and aren't on the goal.
//!
//! `proof_within`: what it finds is a routine proof of the goal from one of its starts, with at
//! most as many nodes as are allowed, and its claim is accepted like that of `guided`.
//! `stuck_nodes`: each of them is a node, other than the goal's, that chosen moves reach from the
//! goal's clause while other nodes are passed over. At the node no entry of the list gives a
//! step, or the first one that does covers a variable, as its cause tells. `stuck_clauses`: the
//! clauses of such nodes. `stuck_starts`: such nodes of each start of the goal, with its start.
//!
//! Tested: Goals by hand, and goals at random beside a plain program in Python (`tests/compare`),
//! through the program.
//!
//! Neither: That `proof_within` finds a proof where the limits allow one, and which of the nodes
//! `stuck_nodes` and `stuck_starts` meet.
#![tactic(auto)]

mod answers;
mod at;
mod bounding;
mod building;
mod calls;
mod choosing;
mod covering;
mod falling_sides;
mod guiding;
mod laws;
mod leading_places;
mod limits;
mod numbered;
mod passing;
mod proving;
mod referring;
mod rewriting;
mod ruling;
mod setting;
mod side_spines;
mod starting;
mod stopping;
mod stuck;
mod trying;

pub use answers::Guided;
pub use guiding::guided;
pub use limits::Limits;
pub use stopping::{StuckStart, stuck_starts};
pub use stuck::{Cause, Stuck, stuck_clauses, stuck_nodes};
pub use trying::proof_within;
