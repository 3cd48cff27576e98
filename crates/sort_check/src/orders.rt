//! The order by equal and status lines, or by the order line.

ghost use Rattle.std.specs.Prelude.{◌≡◌, ◌<◌, ◌==◌, ◌++◌, ◌∷◌, ℕ, List, [], IfOk, OnErr, IsTrue};
ghost use Rattle.std.specs.Prelude.{◌↔◌, if◌then◌else◌, length, map, replicate, slice_index};
ghost use Rattle.std.specs.List.{list_all, range_with_len};
ghost use Rattle.term_core.specs.Precedence.{is_status as orders_arguments, times};
ghost use Rattle.spec_core.specs.Findings.{test, each_after};
ghost use Rattle.spec_core.specs.Orders.{arities};
ghost use Rattle.spec_core.specs.declared.records.OrderInfo.TheVariants.{Path};
ghost use Rattle.sort_check.specs.Answers.{Answers};
ghost use Rattle.sort_check.specs.Orders.{OrderStands, all_numbers, greatest as greatest_number};
ghost use Rattle.sort_check.specs.Orders.{is_among, level_in, status_in, symbol_number};
ghost use Rattle.sort_check.specs.Orders.{symbol_numbers};
ghost use Rattle.sort_check.specs.OrderTests.{IsOrderOfArguments, arity as arity_of, equal_tests};
ghost use Rattle.sort_check.specs.OrderTests.{function_tests, name_tests, order_tests, path_tests};
ghost use Rattle.sort_check.specs.OrderTests.{status_tests};
ghost use Rattle.sort_check.specs.Marks.{AllAreBelow, AreMarks, numbers_of};
ghost use Rattle.sort_check.specs.declared.faults.SortFault.TheVariants.{Sort};
ghost use Rattle.sort_check.specs.declared.faults.SortKind.TheVariants.{
  NoOrderOfArguments as no_order_of_arguments,
};

use crate::faults::{SortFault, SortKind, fault};
use crate::marks::no_marks;
use crate::weights::weights_of;
use spec_core::{OrderInfo, Signature, order_by_number};
use spec_grammar::{RawEqual, RawName, RawSpec, RawStatus};
use std::alloc::Global;
use term_core::{OutOfMemory, Seq, SymId};

/// The order that the lines give: the order by number if there are none.
pub(crate) fn order_of(
    alloc: Global,
    sig: &Signature,
    raw: &RawSpec,
) -> Result<OrderInfo, SortFault>
    ensures { Answers (order_tests sig.now raw.now) (OrderStands raw.now sig.now) result }
{
    let equals = raw.equals.as_slice();
    let statuses = raw.statuses.as_slice();
    let path = path_of(alloc, sig, equals, statuses)?;
    match &raw.order {
        None => Ok(path),
        Some(line) => {
            let weights = weights_of(alloc, sig, equals, statuses, line)?;
            Ok(OrderInfo::Weights { weights })
        }
    }
}

/// The path ordering of equal and status lines.
fn path_of(
    alloc: Global,
    sig: &Signature,
    equals: &[RawEqual],
    statuses: &[RawStatus],
) -> Result<OrderInfo, SortFault>
    ensures { Answers (path_tests sig.now equals.now statuses.now)
        (λ order. order ≡ Path (map (level_in sig.now equals.now) (all_numbers sig.now))
        (map (status_in sig.now statuses.now) (all_numbers sig.now))) result }
{
    match order_by_number(alloc, sig)? {
        OrderInfo::Path {
            levels,
            statuses: written,
        } => {
            let mut levels = levels.into_vec();
            let mut written = written.into_vec();
            set_levels(alloc, sig, equals, &mut levels)?;
            set_statuses(alloc, sig, statuses, &mut written)?;
            Ok(OrderInfo::Path {
                levels: Seq::from_vec(levels),
                statuses: Seq::from_vec(written),
            })
        }
        OrderInfo::Weights { .. } => unreachable!(),
    }
}

/// Gives the functions of each equal line one level, where each symbol has its number.
fn set_levels(
    alloc: Global,
    sig: &Signature,
    raws: &[RawEqual],
    levels: &mut [u32],
) -> Result<(), SortFault>
    requires { levels.old ≡ all_numbers sig.now }
    ensures { Answers (each_after (equal_tests sig.now) [] raws.now)
        (λ _. levels.new ≡ map (level_in sig.now raws.now) (all_numbers sig.now)) result }
{
    let mut taken = no_marks(alloc, sig)?;
    for raw in raws {
        let functions = take_functions(alloc, sig, raw.names.as_slice(), &mut taken)?;
        set_level(functions.as_slice(), levels);
    }
    Ok(())
}

/// Gives the functions of each status line the numbers of the line, where the arguments of each
/// symbol are compared as written.
fn set_statuses(
    alloc: Global,
    sig: &Signature,
    raws: &[RawStatus],
    statuses: &mut [Seq<u8>],
) -> Result<(), SortFault>
    requires { statuses.old ≡ map (range_with_len 1) (arities sig.now) }
    ensures { Answers (each_after (status_tests sig.now) [] raws.now)
        (λ _. statuses.new ≡ map (status_in sig.now raws.now) (all_numbers sig.now)) result }
{
    let mut taken = no_marks(alloc, sig)?;
    for raw in raws {
        let function = take_function(sig, &raw.head, SortKind::StatusTwice, &mut taken)?;
        let status = status_of(alloc, raw, arity(sig, function))?;
        statuses[function.0 as usize] = status;
    }
    Ok(())
}

/// Takes the functions of an equal line, which have one number of arguments.
fn take_functions(
    alloc: Global,
    sig: &Signature,
    raws: &[RawName],
    taken: &mut [bool],
) -> Result<Seq<SymId>, SortFault>
    requires { length taken.old ≡ length sig.now.table }
    ensures within { IfOk result (AllAreBelow (length sig.now.table)) }
    ensures answer { (seen : List ℕ) → AreMarks seen taken.old
        → Answers (each_after (name_tests sig.now seen) [] raws.now)
        (λ made. (numbers_of made ≡ symbol_numbers sig.now raws.now)
        × AreMarks (seen ++ symbol_numbers sig.now raws.now) taken.new) result }
{
    let mut functions = Seq::new(alloc);
    let mut wanted = None;
    for raw in raws {
        let function = take_function(sig, raw, SortKind::EqualTwice, taken)?;
        let count = arity(sig, function);
        if wanted.unwrap_or(count) != count {
            return Err(fault(raw.at, SortKind::WrongNumberOfArguments));
        }
        wanted = Some(count);
        functions.push(function)?;
    }
    Ok(functions)
}

/// Takes the function with this name, which isn't taken.
fn take_function(
    sig: &Signature,
    raw: &RawName,
    twice: SortKind,
    taken: &mut [bool],
) -> Result<SymId, SortFault>
    requires { length taken.old ≡ length sig.now.table }
    ensures within { IfOk result (λ f. f.0 < length sig.now.table) }
    ensures named { IfOk result (λ f. symbol_number sig.now raw.now ≡ f.0) }
    ensures answer { (seen : List ℕ) → AreMarks seen taken.old
        → Answers (function_tests sig.now twice seen raw.now)
        (λ f. AreMarks (seen ++ f.0 ∷ []) taken.new) result }
{
    let Some(function) = sig.symbol(raw.name.as_bytes()) else {
        return Err(fault(raw.at, SortKind::UnknownName));
    };
    if sig.is_constructor(function) {
        return Err(fault(raw.at, SortKind::NotAFunction));
    }
    let number = function.0 as usize;
    if taken[number] {
        return Err(fault(raw.at, twice));
    }
    taken[number] = true;
    Ok(function)
}

/// How many arguments a symbol has.
fn arity(sig: &Signature, sym: SymId) -> usize
    requires { sym.0 < length sig.now.table }
    ensures { result ≡ slice_index (arities sig.now) sym.0 }
{
    sig.info(sym).args.len()
}

/// Gives each of the functions the greatest of their numbers as its level.
fn set_level(functions: &[SymId], levels: &mut [u32])
    requires { AllAreBelow (length levels.old) functions.now }
    ensures { (f : ℕ) → slice_index levels.new f ≡ (if is_among f (numbers_of functions.now)
        then greatest_number (numbers_of functions.now) else slice_index levels.old f) }
{
    let level = greatest(functions);
    for function in functions {
        levels[function.0 as usize] = level;
    }
}

/// The greatest of the numbers.
fn greatest(functions: &[SymId]) -> u32
    ensures { result ≡ greatest_number (numbers_of functions.now) }
{
    let mut level = 0u32;
    for function in functions {
        level = level.max(function.0);
    }
    level
}

/// The numbers of a status line, which order this many arguments. A number that 8 bits don't hold
/// is answered as want of memory.
fn status_of(alloc: Global, raw: &RawStatus, arity: usize) -> Result<Seq<u8>, SortFault>
    ensures { Answers (test (Sort raw.now.head.at no_order_of_arguments)
        (¬ (IsOrderOfArguments arity raw.now.numbers)))
        (λ status. status ≡ raw.now.numbers) result }
{
    let numbers = raw.numbers.as_slice();
    if numbers.len() != arity || !is_status(alloc, numbers)? {
        return Err(fault(raw.head.at, SortKind::NoOrderOfArguments));
    }
    let mut status = Seq::new(alloc);
    for number in numbers {
        if *number > 255 {
            return Err(SortFault::OutOfMemory);
        }
        status.push(*number as u8)?;
    }
    Ok(status)
}

/// Tests whether each number from 1 to the length is there once.
fn is_status(alloc: Global, numbers: &[u32]) -> Result<bool, OutOfMemory>
    ensures { IfOk result (λ b. b ≡ orders_arguments numbers.now) }
{
    let counts = occurrences(alloc, numbers)?;
    Ok(are_ones(&counts))
}

fn are_ones(counts: &[usize]) -> bool
    ensures { result ≡ list_all (λ count. count == 1) counts.now }
{
    counts.iter().all(|count| *count == 1)
}

/// How often each number from 1 to the length is there.
fn occurrences(alloc: Global, numbers: &[u32]) -> Result<Vec<usize>, OutOfMemory>
    ensures { IfOk result (λ counts. counts.items
        ≡ map (λ n. times n numbers.now) (range_with_len 1 (length numbers.now))) }
{
    let mut counts = Vec::from_elem(alloc, 0, numbers.len())?;
    for number in numbers {
        let place = *number as usize;
        if place >= 1 && place <= counts.len() {
            counts[place - 1] += 1;
        }
    }
    Ok(counts)
}
