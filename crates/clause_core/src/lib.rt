//! Admitted specifications, clauses, and the table that says what each proof step makes of a
//! clause.
//!
//! Uses term_core, spec_core, substitutions and term_order; its worked examples take the order of
//! sample_specs. A specification is admitted, by an order on terms, if its definitions are
//! complete, don't overlap and end (`specs/Admitted.antt`). All here holds for any order.
//! `specs/Ranks.antt` says by which ranks proofs descend.
//!
//! A [`Clause`] in a proof keeps limits (`specs/Limits.antt`), has its variables numbered by
//! first occurrence (`specs/Tidied.antt`), and compares with another one by the multisets of all
//! sides (`specs/Comparing.antt`).
//!
//! The table of steps is in `specs/`, in its order: a file for each kind of step, and a
//! definition of a few lines for each row. A row has its conditions one after the other, each
//! with the reason that an unmet one gives, and then the children and the references.
//! `specs/Says.antt` says once for all rows what a row answers, and `specs/Steps.antt` gives each
//! step its row. The crates above take steps, check blocks of them and search for them, and are
//! exact against this table. [`Report`] and its parts are what these crates exchange.
//!
//! Proved: What is asked of an admitted specification, on naturals with addition and five
//! neighbours that aren't admitted (`worked_examples`). Each use of a rule of a well sorted,
//! admitted specification ranks lower, in every ground context and for every order
//! (`rules_rank_lower`). Clauses, each exactly: `tidy`, `into_tidied` and `of_goal` answer the
//! tidied clause, and `tidied_within` that or that it passes the limits. `instance` answers the
//! instance, `within` whether the limits of a clause in a proof hold, and `compare` how the
//! multisets of all sides compare. A tidied clause is tidied, stays so, keeps limits and sorts,
//! and has the failing instances of the clause (`tidying_laws`). Two clauses compare in one way
//! (`one_relation`). `instance_within` says the same limits of an instance that isn't built. An
//! equation by its number and a term at a place are found exactly where they are there, and other
//! equations or another term put in. `clause_examples`. The table: a step at a node has at most
//! one answer, what it makes or the first condition of its row that isn't met (`one_answer`, for
//! every order, over a well sorted specification). A place of a clause is a path in a side
//! (`places_agree`). What the table says at small clauses (`table_examples`, `step_examples`).
//!
//! Tested: Cases of each call by hand, with the limits at and past each number (term_cases).
#![tactic(auto)]

mod answers;
mod clauses;
mod comparing;
mod equations;
mod instance_limits;
mod instances;
mod laws;
mod limits;
mod places;
mod reports;
mod standing;
mod step_laws;
mod steps;
mod tidied;
mod tidying;

pub use answers::{Child, Children, Reference, RewriteError, Why};
pub use clauses::{Clause, Relation};
pub use comparing::compare;
pub use equations::{among, copy_equations, is_either, is_identity};
pub use instance_limits::{instance_depth, instance_size, instance_within};
pub use instances::instance;
pub use laws::{clause_examples, one_relation, rules_rank_lower, tidying_laws, worked_examples};
pub use limits::{MOST_LEVELS, MOST_NODES, MOST_SYMBOLS, within};
pub use places::side;
pub use reports::{Budget, Claim, Outcome, ReplayWhy, Report};
pub use step_laws::{one_answer, places_agree, step_examples, table_examples};
pub use steps::{Block, Place, Step};
pub use tidied::{into_tidied, tidied_within};
pub use tidying::{of_goal, tidy};
