//! The rules of a specification, compiled once into straight code over slots.
//!
//! Uses term_core, spec_core and value_bank. [`compile_rules`] makes a [`RuleCode`] of each rule
//! (`specs/Compiled.antt`). It has the left side as tests of slots ([`LeftSide`]), the guards and
//! the right side as blocks of a [`Code`] (`specs/Blocks.antt`), and for each guard the rules
//! that go on with an answer of its test. [`grow_trees`] makes a [`DecisionTree`] of each
//! function's rules. What code gives is a recursion over it by the definition of evaluation
//! (`specs/Code.antt`, `specs/Laws.antt`).
//!
//! Proved: `compile_rules`, `emit_body`: the code of each rule, with at most as many instructions
//! for all rules as `rules_length` says, and the code of a term. What the code of a term gives is
//! what the term gives, at its cost, both ways (`code_is_right`, `code_is_whole`).
//! `LeftSide::matches`: whether a left side is the call with values at some places
//! (`tests_match`, `tests_decide`, `repeats_decide`). `grow_trees`, `DecisionTree::rules_for`:
//! some of a function's rules, among them all whose left sides are the call (`AreLeft`).
//! `Branch::answered`: which rule goes on with the answer of a test, or that there is none.
//!
//! Neither: At which places a tree looks, and how many rules it leaves.
#![tactic(auto)]

mod blocks;
mod choosing;
mod code;
mod decision_trees;
mod emitting;
mod following;
mod growing;
mod instructions;
mod laws;
mod left_sides;
mod matching;
mod opening;
mod patterns;
mod rule_codes;
mod splitting;
mod symbols;
mod tests;

pub use blocks::emit_body;
pub use code::Code;
pub use decision_trees::DecisionTree;
pub use following::Branch;
pub use growing::grow_trees;
pub use instructions::Kind;
pub use laws::{code_is_right, code_is_whole, repeats_decide, tests_decide, tests_match};
pub use left_sides::LeftSide;
pub use rule_codes::{RuleCode, compile_rules};
