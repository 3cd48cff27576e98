//! `Signature::build`: a signature from its declarations.

ghost use Rattle.std.specs.Prelude.{◌≡◌, ◌+◌, ◌<◌, ◌^◌, ◌∷◌, ◌++◌, [], IfOk, OnOk, MatchOption};
ghost use Rattle.std.specs.Prelude.{IsTrue, length, codes};
ghost use Rattle.std.specs.Bool.{MatchBool};
ghost use Rattle.std.specs.List.{AllByRecursion};
ghost use Rattle.term_core.specs.declared.ids.SortId.{SortId};
ghost use Rattle.spec_core.specs.Declarations.{IsNew, AreFresh, IsNewName, AreNewNames};
ghost use Rattle.spec_core.specs.Declarations.{bool_symbol, bool_symbols, all_symbols, declared_by};
ghost use Rattle.spec_core.specs.Declarations.{AreDistinct, IsBelow, IsNotBool, IsDeclared};
ghost use Rattle.spec_core.specs.Pairs.{pairs_of};
ghost use Rattle.spec_core.specs.Small.{IsFirstWithout};
ghost use Rattle.spec_core.specs.declared.building.BuildError.TheVariants.{
  OutOfMemory as out_of_memory,
};

use crate::records::SymInfo;
use crate::small::first_without;
use crate::symbols::Signature;
use crate::tables::Tables;
use indexmap::IndexMap;
use std::alloc::Global;
use std::fmt;
use term_core::{Name, OutOfMemory, Seq, SortId};

/// Why a signature isn't made.
#[derive(Clone, Copy, Debug, PartialEq, Eq)]
pub enum BuildError {
    /// A name occurs twice among the sorts with `Bool`, or among the symbols with `true` and
    /// `false`.
    Repeated,
    /// The first sort without a value of at most 255 symbols.
    NoSmallValue { sort: SortId },
    OutOfMemory,
}

impl From<OutOfMemory> for BuildError {
    ghost from_gives = { λ _ e. e ≡ out_of_memory };

    fn from(_error: OutOfMemory) -> BuildError {
        BuildError::OutOfMemory
    }
}

impl fmt::Display for BuildError {
    fn fmt<W: fmt::Write>(&self, f: &mut fmt::Formatter<W>) -> fmt::Result {
        match self {
            BuildError::Repeated => f.write_str("a name occurs twice"),
            BuildError::NoSmallValue { sort } => { write!(f, "sort {} has no small value", sort.0) }
            BuildError::OutOfMemory => f.write_str("out of memory"),
        }
    }
}

impl Signature {
    /// Makes the signature of these declarations, with `Bool`, `true` and `false` before them.
    /// `Repeated` goes before `NoSmallValue`.
    pub fn build(
        alloc: Global,
        sorts: Seq<Name>,
        constructors: Seq<(Name, SymInfo)>,
        functions: Seq<(Name, SymInfo)>,
    ) -> Result<Signature, BuildError>
        requires few_sorts { length sorts + 1 < 2 ^ 32 }
        requires few_symbols { length constructors + length functions + 2 < 2 ^ 32 }
        requires constructors_in_range { AllByRecursion (IsBelow (1 + length sorts)) constructors }
        requires functions_in_range { AllByRecursion (IsBelow (1 + length sorts)) functions }
        requires no_more_booleans { AllByRecursion IsNotBool constructors }

        ensures made { IfOk result (λ sig. sig ≡ declared_by sorts constructors functions) }
        ensures declared { IfOk result (λ sig. IsDeclared sig) }

        // The errors: each comes only if its cause is there, and Ok only if neither is.
        ensures distinct { OnOk result (AreDistinct sorts constructors functions) }
        ensures repeated { result ≡ Err BuildError.Repeated
            → AreDistinct sorts constructors functions → ⊥ }
        ensures no_small_value { (s : SortId) → result ≡ Err (BuildError.NoSmallValue s) →
            AreDistinct sorts constructors functions ×
            IsFirstWithout (declared_by sorts constructors functions) s }
    {
        let Some(tables) = all_tables(alloc, sorts, constructors, functions)? else {
            return Err(BuildError::Repeated);
        };
        if let Some(sort) = first_without(alloc, &tables)? {
            return Err(BuildError::NoSmallValue { sort });
        }
        Ok(Signature { tables })
    }
}

/// The tables of these declarations with those of `Bool`, or None if a name occurs twice.
fn all_tables(
    alloc: Global,
    sorts: Seq<Name>,
    constructors: Seq<(Name, SymInfo)>,
    functions: Seq<(Name, SymInfo)>,
) -> Result<Option<Tables>, OutOfMemory>
    requires few_sorts { length sorts + 1 < 2 ^ 32 }
    requires few_symbols { length constructors + length functions + 2 < 2 ^ 32 }
    ensures { IfOk result (λ r. MatchOption r
        (AreDistinct sorts constructors functions → ⊥)
        (λ tables. (tables ≡ declared_by sorts constructors functions) ×
        AreDistinct sorts constructors functions)) }
{
    let count = 2 + constructors.len() as u32;
    let Some(names) = all_sort_names(alloc, sorts.into_vec())? else {
        return Ok(None);
    };
    let Some(symbols) = all_symbol_table(alloc, constructors.into_vec(), functions.into_vec())?
    else {
        return Ok(None);
    };
    Ok(Some(Tables {
        sorts: names,
        symbols,
        constructors: count,
    }))
}

/// The names of all sorts, or None if one occurs twice.
fn all_sort_names(alloc: Global, sorts: Vec<Name>) -> Result<Option<Seq<Name>>, OutOfMemory>
    ensures { let all = codes "Bool" ∷ sorts.items in
        IfOk result (λ r. MatchOption r (AreNewNames [] all → ⊥)
        (λ names. (names ≡ all) × AreNewNames [] all)) }
{
    let mut names = Seq::new(alloc);
    names.push(boolean_name(alloc)?)?;
    if add_sorts(&mut names, sorts)? {
        Ok(Some(names))
    } else {
        Ok(None)
    }
}

fn boolean_name(alloc: Global) -> Result<Name, OutOfMemory>
    ensures { IfOk result (λ r. r ≡ codes "Bool") }
{
    Name::of(alloc, b"Bool")
}

/// Adds sorts in their order, up to one whose name is there.
fn add_sorts(sorts: &mut Seq<Name>, names: Vec<Name>) -> Result<bool, OutOfMemory>
    ensures fresh { IfOk result (λ fresh. IsTrue fresh →
        (sorts.new ≡ sorts.old ++ names.items) × AreNewNames sorts.old names.items) }
    ensures repeated { IfOk result (λ fresh.
        (IsTrue fresh → ⊥) → AreNewNames sorts.old names.items → ⊥) }
{
    let mut rest = names;
    rest.reverse();
    while let Some(name) = rest.pop() {
        if !add_sort(sorts, name)? {
            return Ok(false);
        }
    }
    Ok(true)
}

/// Adds a sort at the end, unless its name is there.
fn add_sort(sorts: &mut Seq<Name>, name: Name) -> Result<bool, OutOfMemory>
    ensures fresh { IfOk result (λ fresh. IsTrue fresh →
        (sorts.new ≡ sorts.old ++ name ∷ []) × IsNewName name sorts.old) }
    ensures repeated { IfOk result (λ fresh. (IsTrue fresh → ⊥) → IsNewName name sorts.old → ⊥) }
{
    if has_name(sorts.as_slice(), name.as_bytes()) {
        return Ok(false);
    }
    sorts.push(name)?;
    Ok(true)
}

/// Whether the name is one of these.
fn has_name(names: &[Name], name: &[u8]) -> bool
    ensures { MatchBool result (IsNewName name.now names.now → ⊥) (IsNewName name.now names.now) }
{
    for other in names {
        if name == other.as_bytes() {
            return true;
        }
    }
    false
}

/// The table of all symbols, or None if a name occurs twice.
fn all_symbol_table(
    alloc: Global,
    constructors: Vec<(Name, SymInfo)>,
    functions: Vec<(Name, SymInfo)>,
) -> Result<Option<IndexMap<Vec<u8>, SymInfo>>, OutOfMemory>
    ensures { let all = all_symbols constructors.items functions.items in
        IfOk result (λ r. MatchOption r (AreFresh [] all → ⊥)
        (λ table. (pairs_of table.entries ≡ all) × AreFresh [] all)) }
{
    let mut table = IndexMap::new(alloc);
    if fill(alloc, &mut table, constructors, functions)? {
        Ok(Some(table))
    } else {
        Ok(None)
    }
}

/// Fills an empty table.
fn fill(
    alloc: Global,
    table: &mut IndexMap<Vec<u8>, SymInfo>,
    constructors: Vec<(Name, SymInfo)>,
    functions: Vec<(Name, SymInfo)>,
) -> Result<bool, OutOfMemory>
    requires { table.old.entries ≡ [] }
    ensures fresh { let all = all_symbols constructors.items functions.items in
        IfOk result (λ fresh. IsTrue fresh →
        (pairs_of table.new.entries ≡ all) × AreFresh [] all) }
    ensures repeated { IfOk result (λ fresh. (IsTrue fresh → ⊥) →
        AreFresh [] (all_symbols constructors.items functions.items) → ⊥) }
{
    let first = bools(alloc)?;
    if !add_symbols(table, first)? {
        return Ok(false);
    }
    if !add_symbols(table, constructors)? {
        return Ok(false);
    }
    add_symbols(table, functions)
}

/// The symbols of `Bool`.
fn bools(alloc: Global) -> Result<Vec<(Name, SymInfo)>, OutOfMemory>
    ensures { IfOk result (λ r. r.items ≡ bool_symbols) }
{
    let mut symbols = Vec::new(alloc);
    symbols.push((Name::of(alloc, b"true")?, bool_info(alloc)))?;
    symbols.push((Name::of(alloc, b"false")?, bool_info(alloc)))?;
    Ok(symbols)
}

fn bool_info(alloc: Global) -> SymInfo
    ensures { result ≡ bool_symbol }
{
    SymInfo {
        args: Seq::new(alloc),
        result: SortId(0),
    }
}

/// Adds symbols in their order, up to one whose name is there.
fn add_symbols(
    table: &mut IndexMap<Vec<u8>, SymInfo>,
    symbols: Vec<(Name, SymInfo)>,
) -> Result<bool, OutOfMemory>
    ensures fresh { let old = pairs_of table.old.entries in
        IfOk result (λ fresh. IsTrue fresh →
        (pairs_of table.new.entries ≡ old ++ symbols.items) × AreFresh old symbols.items) }
    ensures repeated { IfOk result (λ fresh. (IsTrue fresh → ⊥) →
        AreFresh (pairs_of table.old.entries) symbols.items → ⊥) }
{
    let mut rest = symbols;
    rest.reverse();
    while let Some((name, info)) = rest.pop() {
        if !add_symbol(table, name, info)? {
            return Ok(false);
        }
    }
    Ok(true)
}

/// Adds a symbol at the end of the table, unless its name is there.
fn add_symbol(
    table: &mut IndexMap<Vec<u8>, SymInfo>,
    name: Name,
    info: SymInfo,
) -> Result<bool, OutOfMemory>
    ensures fresh { let old = pairs_of table.old.entries in
        IfOk result (λ fresh. IsTrue fresh →
        (pairs_of table.new.entries ≡ old ++ (name, info) ∷ []) × IsNew name old) }
    ensures repeated { IfOk result (λ fresh. (IsTrue fresh → ⊥) →
        IsNew name (pairs_of table.old.entries) → ⊥) }
{
    let name = name.into_bytes();
    if table.contains_key(name.as_slice()) {
        return Ok(false);
    }
    match table.insert(name, info) {
        Ok(_) => Ok(true),
        Err(_) => Err(OutOfMemory),
    }
}
