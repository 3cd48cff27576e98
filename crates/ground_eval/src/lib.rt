//! Evaluation of ground terms, and the verdict of a goal under values, within a budget of rule
//! uses.
//!
//! Uses term_core, spec_core, value_bank, rule_code and bank_machine. For verdicts in which only
//! the first variables have values it uses open_evaluation. For one verdict call
//! [`verdict`]. If the values are in a bank already, [`Evaluate::run`], [`verdict_in`] and
//! [`verdict_part`] take their places. A search makes one [`PartialGoal`] and one bank for the
//! verdicts of a goal. [`PartialGoal::verdict_part`] answers for all lists of values that begin
//! alike.
//!
//! Proved: `eval`: a value of at most 10,000 symbols is right with its cost and within the
//! budget. Large says that there is one of more symbols at this cost, and Spent comes exactly
//! where there is none. `verdict` is the goal's, and Fails implies that the goal fails. A goal
//! has at most one verdict (`one_verdict`). `run` of a bank and `verdict_in` say the same at
//! places of a bank that is lent, to which they only add cells. `verdict_part`, also of a
//! `PartialGoal`: `All` only where each list of values that goes on with the given ones has this
//! verdict, and `Looks` only at a variable without a value, and only if the open walk doesn't
//! end. With a value for each variable it is the verdict. How many cells it adds at most, from
//! the texts of the rules and the goal and the budget (`most_looked`). The table of kept calls
//! and the marks of constants are right before and after, whatever the answer, so one table
//! serves all tries of a search.
//!
//! Neither: That only the tests of the chosen rule are evaluated.
#![tactic(auto)]

mod answers;
mod comparing;
mod evaluation;
mod laws;
mod marks;
mod open_sides;
mod open_spec;
mod over_bank;
mod parts;
mod prepared;

pub use answers::Eval;
pub use bank_machine::BankEval;
pub use evaluation::{eval, verdict};
pub use laws::one_verdict;
pub use marks::ConstantMarks;
pub use open_spec::OpenSpec;
pub use over_bank::{Evaluate, verdict_in, verdict_part};
pub use parts::{Part, PartialGoal};
pub use prepared::place_values;
pub use spec_core::Verdict;
