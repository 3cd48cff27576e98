//! What an accepted report claims is true.
//!
//! Uses acceptance for what an accepted report is, and descent for one step of descent: a failing
//! instance of a node goes on to a child or to a node that is referred to. Weights have no
//! endless descent. Among instances that weigh the same, the way leads from a node that isn't
//! strict to a later or a strict one, and from a strict one to a later strict one. So no node of
//! an accepted block has a failing instance. `specs/ReportTruth.antt` says what is true of a
//! report. The worked examples take the order of sample_specs.
//!
//! Proved: Let a well sorted specification be admitted and a report be accepted by the same
//! order. Then each proved claim is on a true goal, and each refuted one on a goal that fails
//! under its values, whichever order it is and wherever the report came from
//! (`accepted_are_true`). `worked_examples`.
#![tactic(auto)]

mod laws;

pub use laws::{accepted_are_true, worked_examples};
