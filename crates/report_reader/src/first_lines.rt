//! The first line of a claim.

ghost use Rattle.std.specs.Prelude.{◌≡◌, ◌++◌, [], ℕ, List, Bool, IfOk, MatchOption, codes};
ghost use Rattle.spec_core.specs.Sig.{Sig};
ghost use Rattle.spec_core.specs.Declarations.{IsDeclared};
ghost use Rattle.clause_core.specs.declared.reports.Budget.{Budget as AnyBudget};
ghost use Rattle.proof_script.specs.Claims.{yes_or_no};
ghost use Rattle.proof_script.specs.Reports.{BudgetStands};
ghost use Rattle.report_reader.specs.FirstLines.{FirstStands, IsFirst, IsFirstBehind, budget_text};
ghost use Rattle.report_reader.specs.Numbers.{IsNumberBehind};
ghost use Rattle.report_reader.specs.declared.first_lines.FirstLine.{FirstLine as AnyFirst};

use clause_core::{Budget, MOST_NODES};
use proof_script::{after, next_name, next_number};
use std::alloc::Global;
use term_core::{Name, OutOfMemory};

/// The most values of a refuted goal.
const MAX_VALUES: u32 = 16;

/// The greatest depth of values that a search tries.
const MAX_DEPTH: u32 = 8;

/// What the first line of a claim says. As many lines follow as there are nodes or values.
#[derive(Drop)]
pub enum FirstLine {
    Proved { goal: Name, nodes: u32 },
    Refuted { goal: Name, index: u32, values: u32 },
    Open { goal: Name, budget: Budget },
}

/// What the line says, if it is the first line of a claim that may appear. It comes without its
/// newline.
pub fn read_first_line(alloc: Global, line: &[u8]) -> Result<Option<FirstLine>, OutOfMemory>
    ensures { IfOk result (λ o. MatchOption o
        ((sig : Sig) → IsDeclared sig → (first : AnyFirst) → IsFirst sig line.now first → ⊥)
        (λ first. (sig : Sig) → IsFirst sig line.now first)) }
{
    if let Some(words) = after(line, b"proved") {
        return proved_claim(alloc, words);
    }
    if let Some(words) = after(line, b"refuted") {
        return refuted_claim(alloc, words);
    }
    if let Some(words) = after(line, b"open") {
        return open_claim(alloc, words);
    }
    Ok(None)
}

/// What the words after `proved` say.
fn proved_claim(alloc: Global, words: &[u8]) -> Result<Option<FirstLine>, OutOfMemory>
    ensures { IfOk result (λ o. MatchOption o
        ((sig : Sig) → IsDeclared sig → (first : AnyFirst)
        → IsFirstBehind sig (codes "proved") words.now first → ⊥)
        (λ first. (sig : Sig) → IsFirstBehind sig (codes "proved") words.now first)) }
{
    let Some((goal, others)) = next_name(alloc, words)? else {
        return Ok(None);
    };
    let Some(nodes) = last_number(others, b" nodes") else {
        return Ok(None);
    };
    if nodes as usize > MOST_NODES {
        return Ok(None);
    }
    Ok(Some(FirstLine::Proved { goal, nodes }))
}

/// What the words after `refuted` say.
fn refuted_claim(alloc: Global, words: &[u8]) -> Result<Option<FirstLine>, OutOfMemory>
    ensures { IfOk result (λ o. MatchOption o
        ((sig : Sig) → IsDeclared sig → (first : AnyFirst)
        → IsFirstBehind sig (codes "refuted") words.now first → ⊥)
        (λ first. (sig : Sig) → IsFirstBehind sig (codes "refuted") words.now first)) }
{
    let Some((goal, others)) = next_name(alloc, words)? else {
        return Ok(None);
    };
    let Some((index, rest)) = number_behind(others, b" index") else {
        return Ok(None);
    };
    let Some(values) = last_number(rest, b" with") else {
        return Ok(None);
    };
    if values > MAX_VALUES {
        return Ok(None);
    }
    Ok(Some(FirstLine::Refuted {
        goal,
        index,
        values,
    }))
}

/// What the words after `open` say.
fn open_claim(alloc: Global, words: &[u8]) -> Result<Option<FirstLine>, OutOfMemory>
    ensures { IfOk result (λ o. MatchOption o
        ((sig : Sig) → IsDeclared sig → (first : AnyFirst)
        → IsFirstBehind sig (codes "open") words.now first → ⊥)
        (λ first. (sig : Sig) → IsFirstBehind sig (codes "open") words.now first)) }
{
    let Some((goal, others)) = next_name(alloc, words)? else {
        return Ok(None);
    };
    let Some(budget) = read_budget(others) else {
        return Ok(None);
    };
    Ok(Some(FirstLine::Open { goal, budget }))
}

/// How far a goal was tried, as the words after its name say.
fn read_budget(words: &[u8]) -> Option<Budget>
    ensures { MatchOption result
        ((b : AnyBudget) → BudgetStands b → words.now ≡ budget_text b → ⊥)
        (λ b. BudgetStands b × (words.now ≡ budget_text b)) }
{
    let (depth, behind) = number_behind(words, b" depth")?;
    let (tried, behind) = number_behind(behind, b" tried")?;
    let (skipped, behind) = number_behind(behind, b" skipped")?;
    let (cut, behind) = read_cut(behind)?;
    let (plain, behind) = number_behind(behind, b" plain")?;
    let nodes = last_number(behind, b" nodes")?;
    if depth > MAX_DEPTH {
        return None;
    }
    Some(Budget {
        depth,
        tried,
        skipped,
        cut,
        plain,
        nodes,
    })
}

/// Whether there are more substitutions, and what follows the word that says it.
fn read_cut(words: &[u8]) -> Option<(bool, &[u8])>
    ensures { MatchOption result
        ((cut : Bool) (rest : List ℕ) → words.now ≡ codes " cut " ++ (yes_or_no cut ++ rest) → ⊥)
        (λ p. words.now ≡ codes " cut " ++ (yes_or_no p.0 ++ p.1.now)) }
{
    if let Some(rest) = after(words, b" cut yes") {
        return Some((true, rest));
    }
    Some((false, after(words, b" cut no")?))
}

/// The number after the sign at the front, and what follows it.
pub fn number_behind<'a>(words: &'a [u8], sign: &[u8]) -> Option<(u32, &'a [u8])>
    ensures { MatchOption result
        ((n : ℕ) (rest : List ℕ) → IsNumberBehind sign.now words.now n rest → ⊥)
        (λ p. IsNumberBehind sign.now words.now p.0 p.1.now) }
{
    next_number(after(words, sign)?)
}

/// The number after the sign, if nothing follows it.
pub fn last_number(words: &[u8], sign: &[u8]) -> Option<u32>
    ensures { MatchOption result
        ((n : ℕ) → IsNumberBehind sign.now words.now n [] → ⊥)
        (λ n. IsNumberBehind sign.now words.now n []) }
{
    let (number, rest) = number_behind(words, sign)?;
    if rest.is_empty() { Some(number) } else { None }
}
