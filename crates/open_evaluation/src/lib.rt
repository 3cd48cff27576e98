//! Evaluation of goals in which some variables have no value.
//!
//! Uses term_core and spec_core. A variable without a value means itself: evaluation goes on over
//! terms of constructors and variables (`specs/OpenGives.antt`). The walk of a verdict ends if its
//! sides are the same or different whatever the variables are (`specs/OpenVerdict.antt`). Such
//! evaluation is evaluation over a specification with a constant for each of these variables;
//! `specs/Shifted.antt` says what the specification with constants is.
//!
//! Proved: `with_constants`: the specification with a constant of each of these sorts after its
//! constructors, ordered by number and well sorted. `shifted_goal`: the goal over it. Values stay
//! values, and sorts are kept. Left sides that don't overlap and groups that are whole stay so
//! (`no_overlap_is_kept`, `whole_groups_are_kept`). What evaluation over terms with variables gives
//! is given under all values (`instances_give`), and of terms without variables it is evaluation
//! (`closed_terms_give_the_same`). A verdict of the walk is the verdict of each list of values
//! that goes on with the fixed ones (`open_verdicts_hold`), and it stays if some more variables
//! get values (`open_instances_give`, `open_verdicts_stay`). Evaluation with variables is
//! evaluation with a constant for each variable, both ways (`open_gives_with_constants`,
//! `constants_give_openly`). `worked_constants`, `worked_examples`.
#![tactic(auto)]

mod extending;
mod laws;
mod naming;
mod rules;
mod signature;
mod terms;

pub use extending::with_constants;
pub use laws::{
    closed_are_sorted, closed_terms_give_the_same, closing_is_injective, closing_keeps_instances,
    closing_keeps_values, constants_are_values, constants_give_openly, goals_are_kept,
    instances_are_closed, instances_are_shifted, instances_give, no_overlap_is_kept,
    open_gives_with_constants, open_instances_give, open_verdicts_hold, open_verdicts_stay,
    shifted_apart, sorts_are_kept, values_are_kept, whole_groups_are_kept, worked_constants,
    worked_examples,
};
pub use rules::shifted_goal;
