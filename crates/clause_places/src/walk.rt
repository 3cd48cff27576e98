//! The place of an index, sought along equations, sides and terms.

ghost use Rattle.std.specs.Prelude.{◌≡◌, ◌+◌, ◌≤◌, ◌++◌, IfOk, IfSome, true, false, length, map};
ghost use Rattle.std.specs.List.{AllByRecursion};
ghost use Rattle.term_core.specs.Tree.{trees_of};
ghost use Rattle.clause_core.specs.Clauses.{sides_of};
ghost use Rattle.clause_places.specs.Spots.{equation_spots, side_spots, paths, argument_paths};
ghost use Rattle.clause_places.specs.Counts.{counts_of};
ghost use Rattle.clause_places.specs.Numbers.{IsNarrow, AreNarrow};
ghost use Rattle.clause_places.specs.Walk.{Finds, Passes};

use crate::terms::Counts;
use clause_core::Place;
use spec_core::Equation;
use std::alloc::Global;
use term_core::{OutOfMemory, Seq, Term, TermNode};

/// A side of an equation of a clause: a place but for its path.
#[derive(Clone, Copy)]
struct Side {
    conclusion: bool,
    number: u16,
    left: bool,
}

/// What a search for the place of an index along some places comes to: the place, or the index that
/// is left to go after them.
#[derive(Drop)]
pub(crate) enum Search {
    Found(Place),
    Left(usize),
}

/// Looks for the place of this index among those of the equations, of which the first one has the
/// number, and whose sides have this many places. A side that is passed is not walked along.
pub(crate) fn place_in_equations(
    alloc: Global,
    conclusion: bool,
    number: u16,
    equations: &[Equation],
    counts: &[Counts],
    index: usize,
) -> Result<Search, OutOfMemory>
    requires few { number + length equations.now ≤ 65 }
    requires narrow { AllByRecursion IsNarrow (sides_of equations.now) }
    requires counts { counts.now ≡ map counts_of equations.now }
    ensures { IfOk result (Finds (equation_spots conclusion number equations.now) index) }
{
    match equations {
        [] => Ok(Search::Left(index)),
        [first, others @ ..] => {
            match place_in_equation(alloc, conclusion, number, first, counts[0], index)? {
                Search::Found(place) => Ok(Search::Found(place)),
                Search::Left(left) => {
                    place_in_equations(alloc, conclusion, number + 1, others, &counts[1..], left)
                }
            }
        }
    }
}

fn place_in_equation(
    alloc: Global,
    conclusion: bool,
    number: u16,
    equation: &Equation,
    counts: Counts,
    index: usize,
) -> Result<Search, OutOfMemory>
    requires left { IsNarrow equation.now.left }
    requires right { IsNarrow equation.now.right }
    requires counts { counts ≡ counts_of equation.now }
    ensures { IfOk result (Finds (side_spots conclusion number true equation.now.left
        ++ side_spots conclusion number false equation.now.right) index) }
{
    let left = Side {
        conclusion,
        number,
        left: true,
    };
    let right = Side {
        conclusion,
        number,
        left: false,
    };
    match place_in_side(alloc, left, &equation.left, counts.left, index)? {
        Search::Found(place) => Ok(Search::Found(place)),
        Search::Left(rest) => place_in_side(alloc, right, &equation.right, counts.right, rest),
    }
}

fn place_in_side(
    alloc: Global,
    side: Side,
    term: &Term,
    count: usize,
    index: usize,
) -> Result<Search, OutOfMemory>
    requires narrow { IsNarrow term.now }
    requires count { count ≡ length (paths term.now) }
    ensures { IfOk result
        (Finds (side_spots side.conclusion side.number side.left term.now) index) }
{
    if index >= count {
        return Ok(Search::Left(index - count));
    }
    let mut path = Vec::new(alloc);
    match pass_term(term, index, &mut path)? {
        Some(_) => unreachable!(),
        None => {
            path.reverse();
            Ok(Search::Found(Place {
                conclusion: side.conclusion,
                number: side.number,
                left: side.left,
                path: Seq::from_vec(path),
            }))
        }
    }
}

/// Passes the paths of the term, and answers how far the index is after them. None if it comes
/// to the path of this index, which then comes after the numbers that were given, its last number
/// first: only the path that is found is written.
#[cycle(pass)]
fn pass_term(term: &Term, index: usize, path: &mut Vec<u8>) -> Result<Option<usize>, OutOfMemory>
    requires { IsNarrow term.now }
    ensures { IfOk result (Passes (paths term.now) index path.old.items path.new.items) }
{
    match &term.node {
        TermNode::Var(_) => Ok(index.checked_sub(1)),
        TermNode::App(_, args) => match pass_arguments(1, args.as_slice(), index, path)? {
            Some(left) => Ok(left.checked_sub(1)),
            None => Ok(None),
        },
    }
}

/// The same of arguments, of which the first one has the number.
#[cycle(pass)]
fn pass_arguments(
    number: u8,
    terms: &[Term],
    index: usize,
    path: &mut Vec<u8>,
) -> Result<Option<usize>, OutOfMemory>
    requires few { number + length terms.now ≤ 9 }
    requires narrow { AreNarrow (trees_of terms.now) }
    ensures { IfOk result (Passes (argument_paths number (trees_of terms.now)) index
        path.old.items path.new.items) }
{
    match terms {
        [] => Ok(Some(index)),
        [first, others @ ..] => {
            if let Some(left) = left_behind(first, index) {
                return pass_arguments(number + 1, others, left, path);
            }
            match pass_term(first, index, path)? {
                None => {
                    path.push(number)?;
                    Ok(None)
                }
                Some(left) => pass_arguments(number + 1, others, left, path),
            }
        }
    }
}

/// How far the index is past the paths of the term, if its size shows that it is.
fn left_behind(term: &Term, index: usize) -> Option<usize>
    ensures { IfSome result (λ left. index ≡ length (paths term.now) + left) }
{
    let size = term.size(u32::MAX);
    if size == u32::MAX {
        return None;
    }
    index.checked_sub(size as usize)
}
