//! The words of a line and their bytes.

ghost use Rattle.std.specs.Prelude.{◌≡◌, ◌++◌, OnOk, codes, flat_map, map};
ghost use Rattle.std.specs.Fmt.{decimal};
ghost use Rattle.std.specs.List.{AllByRecursion};
ghost use Rattle.term_core.specs.Tree.{trees_of};
ghost use Rattle.spec_core.specs.TermText.{SymbolsAreInRange, AllSymbolsAreInRange};
ghost use Rattle.proof_script.specs.Words.{equation_text, in_brackets, line_text};
ghost use Rattle.proof_script.specs.Words.{other_patterns_text};
ghost use Rattle.proof_script.specs.Words.{pattern_text, place_text, with_commas, word_text};
ghost use Rattle.proof_script.specs.Ranges.{WordIsInRange};
ghost use Rattle.proof_script.specs.Written.{text_by, word_of};

use clause_core::Place;
use spec_core::{Signature, append_decimal};
use std::alloc::Global;
use term_core::{Name, OutOfMemory, Term, TermNode, front};

/// A word of a line.
#[derive(Clone, Copy)]
pub enum Word<'a> {
    Fixed(&'a [u8]),
    Name(&'a Name),
    Number(usize),
    /// A variable by its number.
    Variable(u32),
    /// A conclusion (true) or a premise, by its number.
    Equation(bool, u16),
    Place(&'a Place),
    /// The left side (true) or the right one.
    Side(bool),
    Term(&'a Term),
    Terms(&'a [Term]),
    Patterns(&'a [Term]),
}

/// How the variables of a term are written.
#[derive(Clone, Copy)]
pub enum Variables {
    /// As `?n`.
    Numbered,
    /// As `_`.
    Blank,
}

/// Appends the line of this head and these words.
pub fn append_line(
    alloc: Global,
    sig: &Signature,
    head: &[u8],
    words: &[Word<'_>],
    text: &mut Vec<u8>,
) -> Result<(), OutOfMemory>
    requires { AllByRecursion (WordIsInRange sig.now) (map word_of words.now) }
    ensures { OnOk result (text.new.items ≡ text.old.items
        ++ line_text sig.now (record { head = head.now; words = map word_of words.now })) }
{
    text.extend_from_slice(head)?;
    for word in words {
        text.push(b' ')?;
        append_word(alloc, sig, word, text)?;
    }
    text.push(b'\n')?;
    Ok(())
}

fn append_word(
    alloc: Global,
    sig: &Signature,
    word: &Word<'_>,
    text: &mut Vec<u8>,
) -> Result<(), OutOfMemory>
    requires { WordIsInRange sig.now (word_of word.now) }
    ensures { OnOk result
        (text.new.items ≡ text.old.items ++ word_text sig.now (word_of word.now)) }
{
    match *word {
        Word::Fixed(fixed) => text.extend_from_slice(fixed)?,
        Word::Name(name) => text.extend_from_slice(name.as_bytes())?,
        Word::Number(number) => append_decimal(number, text)?,
        Word::Variable(number) => {
            text.push(b'?')?;
            append_decimal(number as usize, text)?;
        }
        Word::Equation(conclusion, number) => append_equation(conclusion, number, text)?,
        Word::Place(place) => append_place(place, text)?,
        Word::Side(left) => text.push(if left { b'l' } else { b'r' })?,
        Word::Term(term) => sig.print(alloc, &[], term, text)?,
        Word::Terms(terms) => append_list(alloc, sig, Variables::Numbered, terms, text)?,
        Word::Patterns(patterns) => append_list(alloc, sig, Variables::Blank, patterns, text)?,
    }
    Ok(())
}

fn append_equation(conclusion: bool, number: u16, text: &mut Vec<u8>) -> Result<(), OutOfMemory>
    ensures { OnOk result (text.new.items ≡ text.old.items ++ equation_text conclusion number) }
{
    text.push(if conclusion { b'c' } else { b'p' })?;
    append_decimal(number as usize, text)
}

fn append_place(place: &Place, text: &mut Vec<u8>) -> Result<(), OutOfMemory>
    ensures { OnOk result (text.new.items ≡ text.old.items ++ place_text place.now) }
{
    append_equation(place.conclusion, place.number, text)?;
    text.extend_from_slice(if place.left { b".l" } else { b".r" })?;
    append_path(place.path.as_slice(), text)
}

/// Appends each argument number after a dot.
fn append_path(path: &[u8], text: &mut Vec<u8>) -> Result<(), OutOfMemory>
    ensures { OnOk result (text.new.items ≡ text.old.items
        ++ flat_map (λ i. codes "." ++ decimal i) path.now) }
{
    for number in path {
        text.push(b'.')?;
        append_decimal(*number as usize, text)?;
    }
    Ok(())
}

/// Appends the terms in brackets.
fn append_list(
    alloc: Global,
    sig: &Signature,
    variables: Variables,
    terms: &[Term],
    text: &mut Vec<u8>,
) -> Result<(), OutOfMemory>
    requires { AllByRecursion (SymbolsAreInRange sig.now) terms.now }
    ensures { OnOk result (text.new.items ≡ text.old.items
        ++ in_brackets (with_commas (map (text_by sig.now variables) terms.now))) }
{
    text.push(b'[')?;
    if let Some((first, others)) = front(terms) {
        append_term(alloc, sig, variables, first, text)?;
        append_others(alloc, sig, variables, others, text)?;
    }
    text.push(b']')?;
    Ok(())
}

/// Appends each term after a comma and a blank.
fn append_others(
    alloc: Global,
    sig: &Signature,
    variables: Variables,
    terms: &[Term],
    text: &mut Vec<u8>,
) -> Result<(), OutOfMemory>
    requires { AllByRecursion (SymbolsAreInRange sig.now) terms.now }
    ensures { OnOk result (text.new.items ≡ text.old.items
        ++ flat_map (λ u. codes ", " ++ u) (map (text_by sig.now variables) terms.now)) }
{
    for term in terms {
        text.extend_from_slice(b", ")?;
        append_term(alloc, sig, variables, term, text)?;
    }
    Ok(())
}

fn append_term(
    alloc: Global,
    sig: &Signature,
    variables: Variables,
    term: &Term,
    text: &mut Vec<u8>,
) -> Result<(), OutOfMemory>
    requires { SymbolsAreInRange sig.now term.now }
    ensures { OnOk result
        (text.new.items ≡ text.old.items ++ text_by sig.now variables term.now) }
{
    match variables {
        Variables::Numbered => sig.print(alloc, &[], term, text),
        Variables::Blank => append_pattern(sig, term, text),
    }
}

#[cycle(pattern)]
fn append_pattern(sig: &Signature, pattern: &Term, text: &mut Vec<u8>) -> Result<(), OutOfMemory>
    requires { SymbolsAreInRange sig.now pattern.now }
    ensures { OnOk result (text.new.items ≡ text.old.items ++ pattern_text sig.now pattern.now) }
{
    match &pattern.node {
        TermNode::Var(_) => text.push(b'_')?,
        TermNode::App(sym, args) => {
            text.extend_from_slice(sig.name(*sym))?;
            let Some((first, others)) = front(args.as_slice()) else {
                return Ok(());
            };
            text.push(b'(')?;
            append_pattern(sig, first, text)?;
            append_other_patterns(sig, others, text)?;
            text.push(b')')?;
        }
    }
    Ok(())
}

/// Appends the patterns, each after a comma and a blank.
#[cycle(pattern)]
fn append_other_patterns(
    sig: &Signature,
    patterns: &[Term],
    text: &mut Vec<u8>,
) -> Result<(), OutOfMemory>
    requires { AllSymbolsAreInRange sig.now (trees_of patterns.now) }
    ensures { OnOk result (text.new.items ≡ text.old.items
        ++ other_patterns_text sig.now (trees_of patterns.now)) }
{
    let Some((first, others)) = front(patterns) else {
        return Ok(());
    };
    text.extend_from_slice(b", ")?;
    append_pattern(sig, first, text)?;
    append_other_patterns(sig, others, text)
}
