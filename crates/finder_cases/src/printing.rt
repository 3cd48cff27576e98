//! Texts of symbols, terms and clauses, without blanks.

use anyhow::{Result, bail};
use clause_core::Clause;
use spec_core::{Equation, Signature};
use std::alloc::Global;
use term_core::{SymId, Term, TermNode};

pub fn symbol_text(alloc: Global, sig: &Signature, sym: SymId) -> Result<String> {
    let mut text = String::new(alloc);
    add_symbol(sig, sym, &mut text)?;
    Ok(text)
}

/// The term, with `x0`, `x1` and so on for its variables.
pub fn term_text(alloc: Global, sig: &Signature, term: &Term) -> Result<String> {
    let mut text = String::new(alloc);
    add_term(sig, term, &mut text)?;
    Ok(text)
}

/// The premises, `=>` after each of them, and the conclusions with `|` between them.
pub fn clause_text(alloc: Global, sig: &Signature, clause: &Clause) -> Result<String> {
    let mut text = String::new(alloc);
    for premise in &clause.premises {
        add_equation(sig, premise, &mut text)?;
        text.push_str("=>")?;
    }
    add_conclusions(sig, clause.conclusions.as_slice(), &mut text)?;
    Ok(text)
}

fn add_conclusions(sig: &Signature, equations: &[Equation], text: &mut String) -> Result<()> {
    for (place, equation) in equations.iter().enumerate() {
        if place > 0 {
            text.push_str("|")?;
        }
        add_equation(sig, equation, text)?;
    }
    Ok(())
}

fn add_equation(sig: &Signature, equation: &Equation, text: &mut String) -> Result<()> {
    add_term(sig, &equation.left, text)?;
    text.push_str("=")?;
    add_term(sig, &equation.right, text)
}

fn add_symbol(sig: &Signature, sym: SymId, text: &mut String) -> Result<()> {
    if sym.0 >= sig.symbols() {
        bail!("a symbol isn't declared");
    }
    let Ok(name) = std::str::from_utf8(sig.name(sym)) else {
        bail!("a name is no text");
    };
    text.push_str(name)?;
    Ok(())
}

#[cycle(text)]
fn add_term(sig: &Signature, term: &Term, text: &mut String) -> Result<()> {
    match &term.node {
        TermNode::Var(var) => {
            let number = var.0;
            write!(text, "x{number}")?;
            Ok(())
        }
        TermNode::App(sym, args) => {
            add_symbol(sig, *sym, text)?;
            if args.is_empty() {
                return Ok(());
            }
            text.push_str("(")?;
            add_terms(sig, args.as_slice(), text)?;
            text.push_str(")")?;
            Ok(())
        }
    }
}

/// The terms with commas between them.
#[cycle(text)]
fn add_terms(sig: &Signature, terms: &[Term], text: &mut String) -> Result<()> {
    let mut follows = false;
    for term in terms {
        if follows {
            text.push_str(",")?;
        }
        follows = true;
        add_term(sig, term, text)?;
    }
    Ok(())
}
