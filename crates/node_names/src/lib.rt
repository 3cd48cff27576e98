//! Names for the variables of a block's nodes.
//!
//! Uses block_steps, whose nodes it names, and matching. A step numbers the variables of a child
//! again; [`node_names`] follows each of them from the goal on, so that it keeps its name. Which
//! name a variable gets beyond what is proved is a heuristic.
//!
//! Proved: `node_names`: at each node there are as many names as variables, all different, none of
//! them a symbol's, and each made of a variable's name of the goal or of a rule, or of `v`, with
//! nothing or with primes and digits after it; the first node has the goal's own names if these can
//! be names of a node (`specs/Nodes.antt`). `clause_names`: such names for the variables of a
//! clause that stands alone.
//!
//! Neither: That a variable keeps its name from node to node.
#![tactic(auto)]

mod brought;
mod children;
mod clauses;
mod following;
mod fresh;
mod goals;
mod met;
mod names;
mod nodes;
mod occurring;
mod replacing;
mod settings;
mod simplifying;
mod sorts;
mod stems;

pub use clauses::clause_names;
pub use names::NodeNames;
pub use nodes::node_names;
