//! That terms of admitted specifications have one value, and that each proof step descends.
//!
//! Uses term_core, spec_core, substitutions, term_order and clause_core; its worked examples take
//! the order of sample_specs. It has laws alone, proved by the laws of `TermOrder`
//! (`specs/OneValue.antt`, `specs/SortedChildren.antt`, `specs/Descent.antt`). A clause weighs
//! under values the multiset of the ranks of its sides (`specs/Weights.antt`). No weights descend
//! without end, so no node of a block whose references lead to lesser clauses has a failing
//! instance.
//!
//! Proved: In a well sorted, admitted specification each sorted term without variables gives
//! exactly one value at one cost, and in every ground context the value ranks no higher
//! (`values_rank_lower`). A sorted clause has one weight under values that fit (`one_weight`),
//! which tidying keeps (`tidying_keeps_weight`). Each child that a step makes of a sorted node is
//! sorted, tidied and within the limits (`children_are_sorted`). If the goals that may be used
//! are true, a failing instance of a node goes on by each of the sixteen steps: some child, or
//! some node that is referred to, fails under values of its own, and weighs there what the
//! relation says (`steps_descend`). Each of these holds for every order on terms.
//! `worked_examples`.
#![tactic(auto)]

mod laws;

pub use laws::{
    children_are_sorted, one_weight, steps_descend, tidying_keeps_weight, values_rank_lower,
    worked_examples,
};
