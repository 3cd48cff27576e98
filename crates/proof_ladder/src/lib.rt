//! Proofs of a goal by a ladder of provers: plain proofs, routine proofs, and a freer search.
//!
//! Uses plain_search, proof_search and freer_search. Which provers are asked, in which order and
//! within which limits, is data: a list of [`Prover`]. The first block that one of them finds is
//! the answer, so a goal that the provers of `prove` prove keeps its block if they come first.
//!
//! Proved: `first_proof`, for every order: the claim that the block proves the goal can be written
//! in a report, and it is accepted after any claims that prove the lemmas and aren't on the goal.
//!
//! Neither: That a proof is found.
#![tactic(auto)]

mod provers;
mod proving;

pub use provers::Prover;
pub use proving::first_proof;
