//! What a page shows of terms, clauses, goals and rules, and the words of steps and cases.
//!
//! Uses clause_core, whose steps it says in words, and page_core, on whose pages it draws.
//! `specs/` says by which texts and links each thing is shown, as a list of page_core's events.
//! Nothing is asked of what is drawn: a number or a name that refers to nothing is shown alone.
//!
//! Proved: `draw_clause`, `draw_goal`, `draw_rule`, `draw_step` and `draw_case` draw exactly the
//! events of their definitions: a clause by the names of its variables, with the term at a place
//! marked; a step with the rule, the node or the goal that it refers to, and the terms for its
//! variables; a case by its heading. `goal_names` names the variables of a goal's clause, and
//! `marked_place` is the place that a step rewrites. `worked_examples`.
#![tactic(auto, using(page_core::proofs::Pages::drawing))]

mod cases;
mod clauses;
mod goals;
mod instances;
mod laws;
mod lemmas;
mod lists;
mod naming;
mod references;
mod rules;
mod steps;
mod terms;

pub use cases::{CaseAt, draw_case};
pub use clauses::draw_clause;
pub use goals::{draw_goal, goal_names};
pub use laws::worked_examples;
pub use naming::{Naming, draw_variable};
pub use rules::draw_rule;
pub use steps::{StepAt, draw_step, equation_name, marked_place};
pub use terms::{draw_side, draw_term};
