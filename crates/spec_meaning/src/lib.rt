//! What doesn't change the meaning of a raw specification: places of names, and a later format.
//!
//! Uses sort_check, which says what a raw specification stands for, and spec_printing, which says
//! what is the same apart from places and what declarations are in format 2. The laws serve the
//! text that `load` generates and those that `upgrade` writes.
//!
//! Proved: Raw specifications that are the same apart from places stand for the same
//! specification (`places_mean_nothing`), and so do the same declarations in format 2
//! (`upgrades_stand_for_the_same`).
#![tactic(auto)]

mod laws;

pub use laws::{places_mean_nothing, upgrades_stand_for_the_same};
