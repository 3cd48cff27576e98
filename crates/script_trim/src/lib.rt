//! Accepted reports made shorter, without a search.
//!
//! Uses block_steps, which takes the steps of a claim, and claimed_goals. `children` of
//! inference_rules decides whether a closing step is defined, acceptance and block_links say what
//! is allowed, and proof_script has the text of a claim. A closing step closes a node without a
//! choice of terms (`specs/Closing.antt`). If it could close a node that has children, what
//! descends from the node is cut (`specs/Cut.antt`), and the report that is left is accepted
//! (`specs/Trimmed.antt`).
//!
//! A claim's steps are taken once. Whether a closing step fits a node is asked of the node alone
//! (`fitting.rt`), and by keys most clauses are passed over (`keys.rt`, `lone_nodes.rt`). Whether
//! the block may be cut there is a matter of its links (`cut_links.rt`). So no report is replayed
//! for a cut.
//!
//! Proved: `cut`, for every order: the steps that are left of a proved claim of an accepted
//! report if the closing step could close the node, and None exactly where it couldn't. `trim`:
//! the one report to which first cuts lead. It has the same claims and is accepted, no claim has
//! more nodes, and no node with children could be closed. Tests at one node decide a cut
//! (`tests_decide`), and cuts end at one report (`cuts_trim`). A law says what a block that is
//! cut makes (`cut_blocks`). Claims don't touch one another (`claims_are_apart`). The trimmed
//! report of a text has a text (`trimmed_reports_stand`). `worked_examples`.
//!
//! Tested: Reports by hand, and reports at random (`tests/compare`), through the program.
#![tactic(auto)]

mod blocks;
mod claims;
mod closing;
mod copying;
mod cut_links;
mod cutting;
mod first_cuts;
mod fitting;
mod flags;
mod given_cuts;
mod kept_blocks;
mod keys;
mod laws;
mod lemmas;
mod lone_nodes;
mod placing;
mod subsuming;
mod text_bounds;
mod trimming;

pub use laws::{
    claims_are_apart, cut_blocks, cuts_trim, tests_decide, trimmed_reports_stand, worked_examples,
};
pub use trimming::{cut, trim};
