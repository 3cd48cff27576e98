//! Which nodes are shown.

use crate::stops::Stop;
use clause_core::{Clause, MOST_SYMBOLS};
use proof_search::Stuck;
use spec_core::Equation;

/// The place of the first of the smallest nodes.
pub(crate) fn smallest(stuck: &[Stuck]) -> usize {
    let mut place = 0;
    let mut least = u32::MAX;
    for (number, node) in stuck.iter().enumerate() {
        let size = symbols(&node.clause);
        if size < least {
            least = size;
            place = number;
        }
    }
    place
}

/// How many symbols and variables the clause has.
fn symbols(clause: &Clause) -> u32 {
    let premises = symbols_in(clause.premises.as_slice());
    premises.saturating_add(symbols_in(clause.conclusions.as_slice()))
}

fn symbols_in(equations: &[Equation]) -> u32 {
    let mut size: u32 = 0;
    for equation in equations {
        size = size.saturating_add(equation.left.size(MOST_SYMBOLS));
        size = size.saturating_add(equation.right.size(MOST_SYMBOLS));
    }
    size
}

/// Whether the clause is that of one of the nodes that are shown.
pub(crate) fn is_shown(stops: &[Stop], clause: &Clause) -> bool {
    for stop in stops {
        if are_same(&stop.stuck.clause, clause) {
            return true;
        }
    }
    false
}

fn are_same(clause: &Clause, other: &Clause) -> bool {
    are_same_equations(clause.premises.as_slice(), other.premises.as_slice())
        && are_same_equations(clause.conclusions.as_slice(), other.conclusions.as_slice())
}

fn are_same_equations(equations: &[Equation], others: &[Equation]) -> bool {
    if equations.len() != others.len() {
        return false;
    }
    for (place, equation) in equations.iter().enumerate() {
        let Some(other) = others.get(place) else {
            return false;
        };
        if !equation.left.same(&other.left) || !equation.right.same(&other.right) {
            return false;
        }
    }
    true
}
