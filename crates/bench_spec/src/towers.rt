//! Terms with equal heads at each level, in either ordering.

ghost use Rattle.std.specs.Prelude.{◌≡◌, ◌∷◌, [], IfOk};

use anyhow::{Result, bail};
use kbo_order::Kbo;
use path_order::Lpo;
use std::alloc::Global;
use term_core::{OutOfMemory, Seq, SymId, Term, Terms, VarId};
use term_order::TermOrder;

/// How many arguments the root of a wide term has.
const WIDTH: usize = 8;

/// How many terms on the left take turns, and one.
const TURNS: u32 = 65;

/// Asks again and again whether a term is above another one of about the same symbols, where none
/// is: they have heads of one level at each place and differ in their ends, which are variables.
/// `deep` terms have one argument at each level, `wide` ones eight below the root. `paired` terms
/// are deep, and have on the left another symbol than on the right. Terms `weights` are deep, end
/// with constants, and are compared by weights. The terms on the left take turns, so that no answer
/// can be kept from one turn to the next.
pub fn compared_terms(alloc: Global, shape: &str, size: u32, times: u32) -> Result<u64> {
    let Ok(right) = shaped(alloc, shape, size, SymId(0), TURNS) else {
        bail!("out of memory");
    };
    let symbol = SymId(if shape == "paired" { 1 } else { 0 });
    let mut lefts = Vec::new(alloc);
    for end in 1..TURNS {
        let Ok(left) = shaped(alloc, shape, size, symbol, end) else {
            bail!("out of memory");
        };
        lefts.push(left)?;
    }
    if is_one_greater(alloc, shape, &lefts, &right, times)? {
        bail!("a term is above its copy with another end");
    }
    Ok(u64::from(right.size(u32::MAX)))
}

/// Whether a left term is above the right one in some of the turns, in the order of the shape.
fn is_one_greater(
    alloc: Global,
    shape: &str,
    lefts: &[Term],
    right: &Term,
    times: u32,
) -> Result<bool> {
    if shape == "weights" {
        let order = Kbo::new(Seq::new(alloc));
        return Ok(some_is_greater(&order, lefts, right, times));
    }
    let Ok(order) = order_for(alloc, shape) else {
        bail!("out of memory");
    };
    Ok(some_is_greater(&order, lefts, right, times))
}

/// The order by number, or for paired terms the one in which their two symbols have one level.
fn order_for(alloc: Global, shape: &str) -> Result<Lpo, OutOfMemory> {
    if shape != "paired" {
        return Ok(Lpo::by_number());
    }
    let mut levels = Seq::new(alloc);
    levels.push(1)?;
    levels.push(1)?;
    let mut statuses = Seq::new(alloc);
    statuses.push(one_argument(alloc)?)?;
    statuses.push(one_argument(alloc)?)?;
    Ok(Lpo::with(levels, statuses))
}

/// The order of one argument.
fn one_argument(alloc: Global) -> Result<Seq<u8>, OutOfMemory>
    ensures { IfOk result (λ status. status ≡ 1 ∷ []) }
{
    let mut status = Seq::new(alloc);
    status.push(1)?;
    Ok(status)
}

/// Whether a left term is above the right one in one of this many turns.
fn some_is_greater<O: TermOrder>(order: &O, lefts: &[Term], right: &Term, times: u32) -> bool {
    let mut place: usize = 0;
    for _time in 0..times {
        match lefts.get(place) {
            Some(left) => {
                if order.greater(left, right) {
                    return true;
                }
                place = place.saturating_add(1);
            }
            None => place = 0,
        }
    }
    false
}

/// A term of about this size, most of its symbols this one, whose ends have this number.
fn shaped(
    alloc: Global,
    shape: &str,
    size: u32,
    symbol: SymId,
    end: u32,
) -> Result<Term, OutOfMemory> {
    if shape == "weights" {
        let constant = Term::app(SymId(end), Terms::new(alloc));
        return tower(alloc, size, symbol, constant);
    }
    if shape != "wide" {
        return tower(alloc, size, symbol, Term::var(VarId(end)));
    }
    let mut args = Terms::new(alloc);
    for _column in 0..WIDTH {
        let column = tower(alloc, size / WIDTH as u32, symbol, Term::var(VarId(end)))?;
        args.push(column)?;
    }
    Ok(Term::app(SymId(1), args))
}

/// A term under one symbol, at each of the levels.
fn tower(alloc: Global, levels: u32, symbol: SymId, end: Term) -> Result<Term, OutOfMemory> {
    let mut term = end;
    for _level in 0..levels {
        let mut args = Terms::new(alloc);
        args.push(term)?;
        term = Term::app(symbol, args);
    }
    Ok(term)
}
