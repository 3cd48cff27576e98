//! The signature: the declarations of sorts, constructors and functions.

ghost use Rattle.std.specs.Prelude.{◌≡◌, ℕ, List, ◌+◌, ◌<◌, ◌≤◌, ◌^◌, ◌∷◌, ◌++◌, [], IfOk, OnErr};
ghost use Rattle.std.specs.Prelude.{length, map, codes};
ghost use Rattle.spec_core.specs.declared.records.SymInfo.{SymInfo};
ghost use Rattle.spec_core.specs.Declarations.{IsNewName, IsDeclared};
ghost use Rattle.spec_core.specs.Findings.{Clean, test, each};
ghost use Rattle.spec_grammar.specs.declared.raw.RawNames.{RawNames};
ghost use Rattle.sort_check.specs.Answers.{Answers};
ghost use Rattle.sort_check.specs.Counted.{HasFewDeclarations};
ghost use Rattle.sort_check.specs.DeclarationTests.{sorts_tests, sort_test, symbol_tests};
ghost use Rattle.sort_check.specs.DeclarationTests.{constructors_tests, all_constructors_tests};
ghost use Rattle.sort_check.specs.DeclarationTests.{functions_tests, small_tests, sort_number};
ghost use Rattle.sort_check.specs.DeclarationTests.{constructor_of, constructors_of, function_of};
ghost use Rattle.sort_check.specs.DeclarationTests.{all_sorts, all_constructors, boolean_names};
ghost use Rattle.sort_check.specs.DeclarationTests.{values_sig, declarations_tests, sig_of};
ghost use Rattle.sort_check.specs.Signatures.{SignatureStands, sort_names};
ghost use Rattle.sort_check.specs.declared.faults.SortFault.TheVariants.{Sort};
ghost use Rattle.sort_check.specs.declared.faults.SortFault.TheVariants.{
  OutOfMemory as out_of_memory,
};
ghost use Rattle.sort_check.specs.declared.faults.SortKind.TheVariants.{
  RepeatedName as repeated_name,
};

use crate::faults::{SortFault, SortKind, fault};
use spec_core::{BuildError, Signature, SymInfo};
use spec_grammar::{RawFun, RawName, RawNames, RawSort, RawSpec};
use std::alloc::Global;
use term_core::{Name, OutOfMemory, Seq, SortId, place_of};

/// The signature that declarations give.
pub(crate) fn signature_of(alloc: Global, raw: &RawSpec) -> Result<Signature, SortFault>
    requires few { HasFewDeclarations raw.now }
    ensures { Answers (declarations_tests raw.now)
        (λ sig. (sig ≡ sig_of raw.now) × IsDeclared sig × SignatureStands raw.now sig) result }
{
    let sorts = check_sorts(alloc, raw.sorts.as_slice())?;
    let mut taken = booleans(alloc)?;
    let constructors = add_all_constructors(
        alloc,
        sorts.as_slice(),
        raw.sorts.as_slice(),
        &mut taken,
    )?;
    check_values(alloc, raw, constructors.as_slice())?;
    let functions = add_functions(alloc, sorts.as_slice(), raw.funs.as_slice(), &mut taken)?;
    build(alloc, raw, constructors, functions)
}

/// The names of all sorts.
fn check_sorts(alloc: Global, raws: &[RawSort]) -> Result<Seq<Name>, SortFault>
    ensures { Answers (sorts_tests (codes "Bool" ∷ []) raws.now)
        (λ names. names ≡ codes "Bool" ∷ sort_names raws.now) result }
{
    let mut names = Seq::new(alloc);
    names.push(Name::of(alloc, b"Bool")?)?;
    for raw in raws {
        take_name(alloc, &mut names, &raw.head.name, raw.head.at)?;
    }
    Ok(names)
}

/// Takes a name that isn't taken.
fn take_name(alloc: Global, taken: &mut Seq<Name>, name: &Name, at: usize) -> Result<(), SortFault>
    ensures { Answers (test (Sort at repeated_name) (¬ (IsNewName name.now taken.old)))
        (λ _. taken.new ≡ taken.old ++ name.now ∷ []) result }
{
    match place_of(taken.as_slice(), name.as_bytes()) {
        Some(_) => Err(fault(at, SortKind::RepeatedName)),
        None => {
            taken.push(name.copy(alloc)?)?;
            Ok(())
        }
    }
}

fn booleans(alloc: Global) -> Result<Seq<Name>, OutOfMemory>
    ensures { IfOk result (λ names. names ≡ boolean_names) }
{
    let mut names = Seq::new(alloc);
    names.push(Name::of(alloc, b"true")?)?;
    names.push(Name::of(alloc, b"false")?)?;
    Ok(names)
}

/// The constructors of all sorts.
fn add_all_constructors(
    alloc: Global,
    sorts: &[Name],
    raws: &[RawSort],
    taken: &mut Seq<Name>,
) -> Result<Seq<(Name, SymInfo)>, SortFault>
    requires few { length sorts.now < 2 ^ 32 }
    requires numbers { length raws.now + 1 < 2 ^ 32 }
    ensures { Answers (all_constructors_tests sorts.now taken.old raws.now)
        (λ made. (made ≡ constructors_of sorts.now 1 raws.now)
        × (taken.new
        ≡ taken.old ++ map (λ (e : List ℕ × SymInfo). e.0)
        (constructors_of sorts.now 1 raws.now))) result }
{
    let mut made = Seq::new(alloc);
    for (place, raw) in raws.iter().enumerate() {
        let sort = SortId(place as u32 + 1);
        let constructors = raw.constructors.as_slice();
        add_constructors(alloc, sorts, sort, constructors, taken, &mut made)?;
    }
    Ok(made)
}

/// Adds the constructors of a sort after those made.
fn add_constructors(
    alloc: Global,
    sorts: &[Name],
    sort: SortId,
    raws: &[RawNames],
    taken: &mut Seq<Name>,
    made: &mut Seq<(Name, SymInfo)>,
) -> Result<(), SortFault>
    requires few { length sorts.now < 2 ^ 32 }
    ensures { Answers (constructors_tests sorts.now taken.old raws.now)
        (λ _. (made.new ≡ made.old ++ map (constructor_of sorts.now sort.0) raws.now)
        × (taken.new ≡ taken.old ++ map (λ (c : RawNames). c.name) raws.now)) result }
{
    for raw in raws {
        let args = arguments(alloc, sorts, taken, raw)?;
        let name = raw.name.copy(alloc)?;
        made.push((name, SymInfo { args, result: sort }))?;
    }
    Ok(())
}

/// Takes the name of a symbol, and finds the sorts of its arguments.
fn arguments(
    alloc: Global,
    sorts: &[Name],
    taken: &mut Seq<Name>,
    raw: &RawNames,
) -> Result<Seq<SortId>, SortFault>
    requires few { length sorts.now < 2 ^ 32 }
    ensures { Answers (symbol_tests sorts.now taken.old raw.now)
        (λ args. (args ≡ map (sort_number sorts.now) raw.now.args)
        × (taken.new ≡ taken.old ++ raw.now.name ∷ [])) result }
{
    take_name(alloc, taken, &raw.name, raw.at)?;
    sorts_named(alloc, sorts, raw.args.as_slice())
}

fn sorts_named(alloc: Global, sorts: &[Name], raws: &[RawName]) -> Result<Seq<SortId>, SortFault>
    requires few { length sorts.now < 2 ^ 32 }
    ensures { Answers (each (sort_test sorts.now) raws.now)
        (λ found. found ≡ map (sort_number sorts.now) raws.now) result }
{
    let mut found = Seq::new(alloc);
    for raw in raws {
        found.push(sort_named(sorts, raw)?)?;
    }
    Ok(found)
}

fn sort_named(sorts: &[Name], raw: &RawName) -> Result<SortId, SortFault>
    requires few { length sorts.now < 2 ^ 32 }
    ensures { Answers (sort_test sorts.now raw.now) (λ sort. sort ≡ sort_number sorts.now raw.now)
        result }
{
    match place_of(sorts, raw.name.as_bytes()) {
        Some(place) => Ok(SortId(place as u32)),
        None => Err(fault(raw.at, SortKind::UnknownName)),
    }
}

/// The functions, after the symbols whose names are taken.
fn add_functions(
    alloc: Global,
    sorts: &[Name],
    raws: &[RawFun],
    taken: &mut Seq<Name>,
) -> Result<Seq<(Name, SymInfo)>, SortFault>
    requires few { length sorts.now < 2 ^ 32 }
    ensures { Answers (functions_tests sorts.now taken.old raws.now)
        (λ made. made ≡ map (function_of sorts.now) raws.now) result }
{
    let mut made = Seq::new(alloc);
    for raw in raws {
        let args = arguments(alloc, sorts, taken, &raw.head)?;
        let result = sort_named(sorts, &raw.result)?;
        let name = raw.head.name.copy(alloc)?;
        made.push((name, SymInfo { args, result }))?;
    }
    Ok(made)
}

/// Tests that each sort has a value of at most 255 symbols, over the signature of the constructors
/// alone.
fn check_values(
    alloc: Global,
    raw: &RawSpec,
    constructors: &[(Name, SymInfo)],
) -> Result<(), SortFault>
    requires few { HasFewDeclarations raw.now }
    requires sorts { Clean (sorts_tests (codes "Bool" ∷ []) raw.now.sorts) }
    requires symbols { Clean
        (all_constructors_tests (all_sorts raw.now) boolean_names raw.now.sorts) }
    requires made { constructors.now ≡ all_constructors raw.now }
    ensures { Answers (small_tests (values_sig raw.now) 1 raw.now.sorts) (λ _. Unit {0}) result }
{
    let sorts = names_of_sorts(alloc, raw)?;
    let copies = copy_symbols(alloc, constructors)?;
    match Signature::build(alloc, sorts, copies, Seq::new(alloc)) {
        Ok(_) => Ok(()),
        Err(BuildError::NoSmallValue { sort }) => {
            let raws = raw.sorts.as_slice();
            let place = sort.0 as usize - 1;
            Err(fault(raws[place].head.at, SortKind::NoSmallValue))
        }
        Err(BuildError::OutOfMemory) => Err(SortFault::OutOfMemory),
        Err(BuildError::Repeated) => unreachable!(),
    }
}

/// The names of the declared sorts.
fn names_of_sorts(alloc: Global, raw: &RawSpec) -> Result<Seq<Name>, OutOfMemory>
    ensures { IfOk result (λ names. names ≡ sort_names raw.now.sorts) }
{
    let mut names = Seq::new(alloc);
    let sorts = raw.sorts.as_slice();
    for sort in sorts {
        names.push(sort.head.name.copy(alloc)?)?;
    }
    Ok(names)
}

fn copy_symbols(
    alloc: Global,
    symbols: &[(Name, SymInfo)],
) -> Result<Seq<(Name, SymInfo)>, OutOfMemory>
    ensures { IfOk result (λ copies. copies ≡ symbols.now) }
{
    let mut copies = Seq::new(alloc);
    for symbol in symbols {
        copies.push(copy_symbol(alloc, symbol)?)?;
    }
    Ok(copies)
}

fn copy_symbol(alloc: Global, symbol: &(Name, SymInfo)) -> Result<(Name, SymInfo), OutOfMemory>
    ensures { IfOk result (λ copy. copy ≡ symbol.now) }
{
    let name = symbol.0.copy(alloc)?;
    let args = Seq::from_vec(Vec::from_slice(alloc, symbol.1.args.as_slice())?);
    let result = symbol.1.result;
    Ok((name, SymInfo { args, result }))
}

/// The signature of declarations in which no test finds a fault.
fn build(
    alloc: Global,
    raw: &RawSpec,
    constructors: Seq<(Name, SymInfo)>,
    functions: Seq<(Name, SymInfo)>,
) -> Result<Signature, SortFault>
    requires few { HasFewDeclarations raw.now }
    requires clean { Clean (declarations_tests raw.now) }
    requires constructors_made { constructors ≡ all_constructors raw.now }
    requires functions_made { functions ≡ map (function_of (all_sorts raw.now)) raw.now.funs }
    ensures made { IfOk result (λ sig. (sig ≡ sig_of raw.now) × IsDeclared sig) }
    ensures failed { OnErr result (result ≡ Err out_of_memory) }
{
    let sorts = names_of_sorts(alloc, raw)?;
    match Signature::build(alloc, sorts, constructors, functions) {
        Ok(sig) => Ok(sig),
        Err(BuildError::OutOfMemory) => Err(SortFault::OutOfMemory),
        Err(BuildError::Repeated) => unreachable!(),
        Err(BuildError::NoSmallValue { .. }) => unreachable!(),
    }
}
