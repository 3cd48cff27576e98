//! Proofs by hand: a goal is put under work, steps are taken one by one, and the last one is
//! undone.
//!
//! Uses acceptance, which says what a step makes and what is allowed in a block. inference_rules
//! takes a step, [`TakenSteps`](block_steps::TakenSteps) keeps a goal's nodes and links and takes
//! them back, and proof_script has lines and texts. `specs/States.antt` says what a state is,
//! `specs/Accepting.antt` which commands are accepted and what they make of it, and
//! `specs/Refusals.antt` which ones are refused and the first reason.
//!
//! A session keeps its accepted commands and, for each goal, what its steps made
//! (`kept_goals.rt`). A step costs its line and its node (`taking.rt`): the lengths of the lines
//! so far are kept, and the links are tested once no node is left without a step. Undoing drops
//! what the step made and takes no memory.
//!
//! Proved: `read_commands`: the one list of commands that a text spells, or the number of its
//! first faulty line (`one_reading`). `Session`, for every order, over the one state to which its
//! accepted commands lead (`one_state`). `apply` accepts a goal or a step and answers how many
//! nodes are pending, or changes nothing and answers the first reason (`one_answer`). `undo`
//! gives the state from before the last command, and Nothing exactly where there is none.
//! `open_node`: the number and the clause of the node that is next, or that no goal is under
//! work. `report`: the claims of the state, which are accepted (`states_are_sound`). The test at
//! the last step is that of the whole block (`last_test`), and what is kept changes at its end
//! alone (`keeps_both_ways`). Reports have a text (`reports_stand`). What a session writes is one
//! text (`one_text`), and `session_text` writes it. `worked_examples`.
//!
//! Tested: Sessions by hand, through the program.
#![tactic(auto)]

mod carrying;
mod commands;
mod copying;
mod errors;
mod kept_goals;
mod laws;
mod lengths;
mod reading;
mod reporting;
mod sessions;
mod taking;
mod texts;
mod words;

pub use commands::Command;
pub use errors::{CommandError, SessionError, UndoError};
pub use kept_goals::KeptGoal;
pub use laws::{
    keeps_both_ways, last_test, one_answer, one_reading, one_state, one_text, reports_stand,
    states_are_sound, worked_examples,
};
pub use reading::{MOST_COMMANDS, read_commands};
pub use sessions::Session;
pub use texts::{WrittenSession, session_text};
pub use words::reason;
