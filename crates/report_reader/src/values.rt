//! The line of a value.

ghost use Rattle.std.specs.Prelude.{◌↔◌, ℕ, List, IfOk, IsTrue, MatchOption};
ghost use Rattle.term_core.specs.Tree.{Tree, trees_of};
ghost use Rattle.spec_core.specs.Declarations.{IsDeclared};
ghost use Rattle.proof_script.specs.Reports.{AllAreClosed, IsClosed};
ghost use Rattle.report_reader.specs.ValueLines.{IsValueLine};

use proof_script::{after, is_report_name, next_term, split_word};
use spec_core::Signature;
use std::alloc::Global;
use term_core::{Name, OutOfMemory, Term, TermNode};

/// The name and the value that the line `NAME = VALUE` says, if they may appear in a report. The
/// line comes without its newline.
pub fn read_value(
    alloc: Global,
    sig: &Signature,
    line: &[u8],
) -> Result<Option<(Name, Term)>, OutOfMemory>
    requires { IsDeclared sig.now }
    ensures { IfOk result (λ o. MatchOption o
        ((name : List ℕ) (value : Tree) → IsValueLine sig.now line.now name value → ⊥)
        (λ v. IsValueLine sig.now line.now v.0 v.1)) }
{
    let (name, words) = split_word(line);
    if !is_report_name(name) {
        return Ok(None);
    }
    let Some(behind) = after(words, b" =") else {
        return Ok(None);
    };
    let Some((value, rest)) = next_term(alloc, sig, behind)? else {
        return Ok(None);
    };
    if !rest.is_empty() {
        return Ok(None);
    }
    if !is_closed(sig, &value) {
        return Ok(None);
    }
    Ok(Some((Name::of(alloc, name)?, value)))
}

/// Whether the term has neither variables nor functions.
#[cycle(closed)]
fn is_closed(sig: &Signature, term: &Term) -> bool
    ensures { IsTrue result ↔ IsClosed sig.now term.now }
{
    match &term.node {
        TermNode::Var(_) => false,
        TermNode::App(sym, args) => sym.0 < sig.constructors() && are_closed(sig, args.as_slice()),
    }
}

/// Whether each of the terms is such a one.
#[cycle(closed)]
fn are_closed(sig: &Signature, terms: &[Term]) -> bool
    ensures { IsTrue result ↔ AllAreClosed sig.now (trees_of terms.now) }
{
    for term in terms {
        if !is_closed(sig, term) {
            return false;
        }
    }
    true
}
