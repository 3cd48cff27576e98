//! Candidates for lemmas, made from a clause and from the clauses at which its proof is stuck.
//!
//! Uses clauses of clause_core, and matching. A file has each kind of generalization: a variable
//! for subterms that occur again (`repeated_subterms.rt`) or for a starting value
//! (`accumulators.rt`), an occurrence of a variable that gets a variable of its own
//! (`occurrences_apart.rt`), and a premise less (`fewer_premises.rt`). [`ranked`] adds the stuck
//! clauses and what they become by the equation of the clause (`rewritten.rt`), takes away what
//! a lemma needn't say (`trimmed.rt`), and puts the best ones first (`ranking.rt`).
//!
//! Proved: Both calls are safe and end. Each clause that `ranked` answers is well sorted.
//!
//! Tested: The candidates of a few clauses, by hand (generalizing_cases).
//!
//! Neither: Which candidates there are, and in which order. Nobody has to trust them: a candidate
//! is a lemma only once it is proved.
#![tactic(auto)]

mod abstracting;
mod accumulators;
mod best_first;
mod candidates;
mod copies;
mod fewer_premises;
mod generalizing;
mod occurrences;
mod occurrences_apart;
mod parts;
mod ranking;
mod renaming;
mod repeated_subterms;
mod rewritten;
mod sorted;
mod trimmed;

pub use best_first::ranked;
pub use generalizing::generalizations;
