//! The weights of an order line.

ghost use Rattle.std.specs.Prelude.{◌≡◌, ◌<◌, ◌∷◌, ◌++◌, List, [], IfOk, length, map, replicate};
ghost use Rattle.spec_core.specs.Findings.{each_after};
ghost use Rattle.spec_grammar.specs.declared.raw.RawWeight.{RawWeight};
ghost use Rattle.sort_check.specs.Answers.{Answers};
ghost use Rattle.sort_check.specs.Marks.{AreMarks};
ghost use Rattle.sort_check.specs.Orders.{all_numbers, symbol_number, symbol_numbers, weight_in};
ghost use Rattle.sort_check.specs.OrderTests.{line_tests, weighed_names, weight_tests};

use crate::faults::{SortFault, SortKind, fault};
use crate::marks::no_marks;
use spec_core::Signature;
use spec_grammar::{RawEqual, RawOrder, RawStatus, RawWeight};
use std::alloc::Global;
use term_core::{OutOfMemory, Seq, SymId};

/// The weights that an order line gives, beside these equal and status lines.
pub(crate) fn weights_of(
    alloc: Global,
    sig: &Signature,
    equals: &[RawEqual],
    statuses: &[RawStatus],
    line: &RawOrder,
) -> Result<Seq<u32>, SortFault>
    ensures { Answers (line_tests sig.now equals.now statuses.now line.now)
        (λ weights. weights ≡ map (weight_in sig.now line.now.weights) (all_numbers sig.now))
        result }
{
    if line.name.name.as_bytes() != b"kbo".as_slice() {
        return Err(fault(line.name.at, SortKind::UnknownName));
    }
    if !equals.is_empty() || !statuses.is_empty() {
        return Err(fault(line.name.at, SortKind::EqualOrStatusWithKbo));
    }
    weights_in(alloc, sig, line.weights.as_slice())
}

/// The weight of each symbol: 1 if none of these is its own.
fn weights_in(alloc: Global, sig: &Signature, raws: &[RawWeight]) -> Result<Seq<u32>, SortFault>
    ensures { Answers (each_after (weight_tests sig.now) [] raws.now)
        (λ weights. weights ≡ map (weight_in sig.now raws.now) (all_numbers sig.now)) result }
{
    let mut taken = no_marks(alloc, sig)?;
    let mut weights = ones(alloc, sig)?;
    for raw in raws {
        let symbol = take_symbol(sig, raw, &mut taken)?;
        weights[symbol.0 as usize] = raw.weight;
    }
    Ok(Seq::from_vec(weights))
}

/// The weight 1 for each symbol.
fn ones(alloc: Global, sig: &Signature) -> Result<Vec<u32>, OutOfMemory>
    ensures { IfOk result (λ weights. weights.items ≡ replicate (length sig.now.table) 1) }
{
    let weights = Vec::from_elem(alloc, 1, sig.symbols() as usize)?;
    Ok(weights)
}

/// Takes the symbol with this weight, which isn't taken.
fn take_symbol(sig: &Signature, raw: &RawWeight, taken: &mut [bool]) -> Result<SymId, SortFault>
    requires { length taken.old ≡ length sig.now.table }
    ensures within { IfOk result (λ f. f.0 < length sig.now.table) }
    ensures named { IfOk result (λ f. symbol_number sig.now raw.now.name ≡ f.0) }
    ensures answer { (before : List RawWeight)
        → AreMarks (symbol_numbers sig.now (weighed_names before)) taken.old
        → Answers (weight_tests sig.now before raw.now)
        (λ _. AreMarks (symbol_numbers sig.now (weighed_names (before ++ raw.now ∷ []))) taken.new)
        result }
{
    let Some(symbol) = sig.symbol(raw.name.name.as_bytes()) else {
        return Err(fault(raw.name.at, SortKind::UnknownName));
    };
    let number = symbol.0 as usize;
    if taken[number] {
        return Err(fault(raw.name.at, SortKind::RepeatedName));
    }
    if raw.weight == 0 || raw.weight > 1000 {
        return Err(fault(raw.name.at, SortKind::WrongWeight));
    }
    taken[number] = true;
    Ok(symbol)
}
