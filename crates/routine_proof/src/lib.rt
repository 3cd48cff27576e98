//! Routine proofs of a goal: which blocks a fixed order of trying gives, and which is the first
//! proof.
//!
//! Uses clause_core for the steps and their table, and acceptance, which says when steps prove a
//! clause. clause_places and fitting_lists have the places, variables and lists of terms that
//! steps name, test_sets has the covers, and proof_script the text of a claim.
//! `specs/Entries.antt` has the list of candidates for the step of a node, entry by entry, and
//! `specs/First.antt` says which of them is taken. `specs/Blocks.antt` says of finished steps
//! that each one is so chosen. `specs/Routine.antt` says from which starts a goal has such a
//! block, and which of them is its first proof. The worked examples take the order of
//! sample_specs.
//!
//! Proved: For every order, a start of a goal has at most one routine block (`one_block`), and a
//! goal has one first routine proof or none (`one_proof`). What proves a clause by lemmas proves
//! it after claims that prove these (`proves_behind_claims`). The steps of a routine block may be
//! in a report (`routine_blocks_stand`). `worked_examples`.
#![tactic(auto)]

mod laws;
mod moves;

pub use laws::{one_block, one_proof, proves_behind_claims, routine_blocks_stand, worked_examples};
pub use moves::Move;
