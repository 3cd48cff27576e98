//! The printed form of a raw specification, piece by piece.

ghost use Rattle.std.specs.Prelude.{◌≡◌, ◌++◌, IfOk, OnOk, codes, map};
ghost use Rattle.std.specs.Fmt.{decimal};
ghost use Rattle.std.specs.List.{flat_map};
ghost use Rattle.spec_grammar.specs.RawTree.{raw_trees};
ghost use Rattle.spec_grammar.specs.declared.raw.RawName.{RawName};
ghost use Rattle.spec_printing.specs.ReadsBack.{ReadsBackAs};
ghost use Rattle.spec_printing.specs.Upgraded.{upgraded};
ghost use Rattle.spec_printing.specs.Printed.{printed, header_line, listed, spaced, term_printed};
ghost use Rattle.spec_printing.specs.Printed.{others_printed, sides_printed, equation_printed};
ghost use Rattle.spec_printing.specs.Printed.{names_printed, sort_line, fun_line, equal_line};
ghost use Rattle.spec_printing.specs.Printed.{status_line, weight_printed, weights_printed};
ghost use Rattle.spec_printing.specs.Printed.{order_line, guard_printed, rule_line, bind_printed};
ghost use Rattle.spec_printing.specs.Printed.{arrow_printed, clause_printed, goal_line};

use spec_grammar::{
    RawBind, RawEq, RawEqual, RawFun, RawGoal, RawGuard, RawName, RawNames, RawOrder, RawRule,
    RawSort, RawSpec, RawStatus, RawTerm, RawWeight,
};
use std::alloc::Global;
use term_core::{OutOfMemory, front};

/// The printed form of the raw specification, whether or not a text derives it. What is printed of
/// one that a text derives derives the same one again, apart from places.
pub fn print(alloc: Global, raw: &RawSpec) -> Result<Vec<u8>, OutOfMemory>
    ensures printed { IfOk result (λ r. r.items ≡ printed raw.now) }
    ensures reads_back { IfOk result (λ r. ReadsBackAs raw.now r.items) }
{
    printed_form(alloc, raw.version, raw)
}

/// The printed form in format 2 of the raw specification, whose own format may be another.
pub fn upgrade(alloc: Global, raw: &RawSpec) -> Result<Vec<u8>, OutOfMemory>
    ensures { IfOk result (λ r. r.items ≡ printed (upgraded raw.now)) }
{
    printed_form(alloc, 2, raw)
}

/// The printed form, with this number as its format.
fn printed_form(alloc: Global, version: u32, raw: &RawSpec) -> Result<Vec<u8>, OutOfMemory>
    ensures { IfOk result (λ r. r.items ≡ printed (record raw.now { version = version })) }
{
    let mut text = Vec::new(alloc);
    append_header(alloc, version, &mut text)?;
    append_sorts(raw.sorts.as_slice(), &mut text)?;
    append_funs(raw.funs.as_slice(), &mut text)?;
    append_equals(raw.equals.as_slice(), &mut text)?;
    append_statuses(alloc, raw.statuses.as_slice(), &mut text)?;
    append_order(alloc, &raw.order, &mut text)?;
    append_rules(raw.rules.as_slice(), &mut text)?;
    append_goals(raw.goals.as_slice(), &mut text)?;
    Ok(text)
}

/// Appends `spike NUMBER`.
fn append_header(alloc: Global, version: u32, text: &mut Vec<u8>) -> Result<(), OutOfMemory>
    ensures { OnOk result (text.new.items ≡ text.old.items ++ header_line version) }
{
    text.extend_from_slice(b"spike ")?;
    append_number(alloc, version, text)?;
    text.push(b'\n')?;
    Ok(())
}

fn append_number(alloc: Global, number: u32, text: &mut Vec<u8>) -> Result<(), OutOfMemory>
    ensures { OnOk result (text.new.items ≡ text.old.items ++ decimal number) }
{
    text.extend_from_slice(number.to_string(alloc)?.as_bytes())?;
    Ok(())
}

fn append_sorts(sorts: &[RawSort], text: &mut Vec<u8>) -> Result<(), OutOfMemory>
    ensures { OnOk result (text.new.items ≡ text.old.items ++ flat_map sort_line sorts.now) }
{
    for sort in sorts {
        append_sort(sort, text)?;
    }
    Ok(())
}

/// Appends `sort NAME = CONSTRUCTOR | CONSTRUCTOR`.
fn append_sort(sort: &RawSort, text: &mut Vec<u8>) -> Result<(), OutOfMemory>
    ensures { OnOk result (text.new.items ≡ text.old.items ++ sort_line sort.now) }
{
    text.extend_from_slice(b"sort ")?;
    text.extend_from_slice(sort.head.name.as_bytes())?;
    text.extend_from_slice(b" =")?;
    append_constructors(sort.constructors.as_slice(), text)?;
    text.push(b'\n')?;
    Ok(())
}

/// Appends ` CONSTRUCTOR | CONSTRUCTOR`.
fn append_constructors(constructors: &[RawNames], text: &mut Vec<u8>) -> Result<(), OutOfMemory>
    ensures { OnOk result (text.new.items ≡ text.old.items
        ++ spaced (codes " | ") (map names_printed constructors.now)) }
{
    let Some((first, others)) = front(constructors) else {
        return Ok(());
    };
    text.push(b' ')?;
    append_with_names(first, text)?;
    for other in others {
        text.extend_from_slice(b" | ")?;
        append_with_names(other, text)?;
    }
    Ok(())
}

/// Appends `NAME(NAME, NAME)`.
fn append_with_names(names: &RawNames, text: &mut Vec<u8>) -> Result<(), OutOfMemory>
    ensures { OnOk result (text.new.items ≡ text.old.items ++ names_printed names.now) }
{
    text.extend_from_slice(names.name.as_bytes())?;
    append_names(names.args.as_slice(), text)?;
    Ok(())
}

/// Appends `(NAME, NAME)`.
fn append_names(names: &[RawName], text: &mut Vec<u8>) -> Result<(), OutOfMemory>
    ensures { OnOk result (text.new.items ≡ text.old.items
        ++ listed (map (λ (n : RawName). n.name) names.now)) }
{
    let Some((first, others)) = front(names) else {
        return Ok(());
    };
    text.push(b'(')?;
    text.extend_from_slice(first.name.as_bytes())?;
    for other in others {
        text.extend_from_slice(b", ")?;
        text.extend_from_slice(other.name.as_bytes())?;
    }
    text.push(b')')?;
    Ok(())
}

fn append_funs(funs: &[RawFun], text: &mut Vec<u8>) -> Result<(), OutOfMemory>
    ensures { OnOk result (text.new.items ≡ text.old.items ++ flat_map fun_line funs.now) }
{
    for function in funs {
        append_fun(function, text)?;
    }
    Ok(())
}

/// Appends `fun NAME(NAME, NAME) : NAME`.
fn append_fun(function: &RawFun, text: &mut Vec<u8>) -> Result<(), OutOfMemory>
    ensures { OnOk result (text.new.items ≡ text.old.items ++ fun_line function.now) }
{
    text.extend_from_slice(b"fun ")?;
    append_with_names(&function.head, text)?;
    text.extend_from_slice(b" : ")?;
    text.extend_from_slice(function.result.name.as_bytes())?;
    text.push(b'\n')?;
    Ok(())
}

fn append_equals(equals: &[RawEqual], text: &mut Vec<u8>) -> Result<(), OutOfMemory>
    ensures { OnOk result (text.new.items ≡ text.old.items ++ flat_map equal_line equals.now) }
{
    for equal in equals {
        append_equal(equal, text)?;
    }
    Ok(())
}

/// Appends `equal NAME, NAME`.
fn append_equal(equal: &RawEqual, text: &mut Vec<u8>) -> Result<(), OutOfMemory>
    ensures { OnOk result (text.new.items ≡ text.old.items ++ equal_line equal.now) }
{
    text.extend_from_slice(b"equal")?;
    append_spaced_names(equal.names.as_slice(), text)?;
    text.push(b'\n')?;
    Ok(())
}

/// Appends ` NAME, NAME`.
fn append_spaced_names(names: &[RawName], text: &mut Vec<u8>) -> Result<(), OutOfMemory>
    ensures { OnOk result (text.new.items ≡ text.old.items
        ++ spaced (codes ", ") (map (λ (n : RawName). n.name) names.now)) }
{
    let Some((first, others)) = front(names) else {
        return Ok(());
    };
    text.push(b' ')?;
    text.extend_from_slice(first.name.as_bytes())?;
    for other in others {
        text.extend_from_slice(b", ")?;
        text.extend_from_slice(other.name.as_bytes())?;
    }
    Ok(())
}

fn append_statuses(
    alloc: Global,
    statuses: &[RawStatus],
    text: &mut Vec<u8>,
) -> Result<(), OutOfMemory>
    ensures { OnOk result (text.new.items ≡ text.old.items ++ flat_map status_line statuses.now) }
{
    for status in statuses {
        append_status(alloc, status, text)?;
    }
    Ok(())
}

/// Appends `status NAME(NUMBER, NUMBER)`.
fn append_status(alloc: Global, status: &RawStatus, text: &mut Vec<u8>) -> Result<(), OutOfMemory>
    ensures { OnOk result (text.new.items ≡ text.old.items ++ status_line status.now) }
{
    text.extend_from_slice(b"status ")?;
    text.extend_from_slice(status.head.name.as_bytes())?;
    append_numbers(alloc, status.numbers.as_slice(), text)?;
    text.push(b'\n')?;
    Ok(())
}

/// Appends `(NUMBER, NUMBER)`.
fn append_numbers(alloc: Global, numbers: &[u32], text: &mut Vec<u8>) -> Result<(), OutOfMemory>
    ensures { OnOk result (text.new.items ≡ text.old.items
        ++ listed (map decimal numbers.now)) }
{
    let Some((first, others)) = front(numbers) else {
        return Ok(());
    };
    text.push(b'(')?;
    append_number(alloc, *first, text)?;
    for other in others {
        text.extend_from_slice(b", ")?;
        append_number(alloc, *other, text)?;
    }
    text.push(b')')?;
    Ok(())
}

/// Appends `order NAME : NAME = NUMBER, NAME = NUMBER`, and nothing if there is no such line.
fn append_order(
    alloc: Global,
    order: &Option<RawOrder>,
    text: &mut Vec<u8>,
) -> Result<(), OutOfMemory>
    ensures { OnOk result (text.new.items ≡ text.old.items ++ order_line order.now) }
{
    let Some(order) = order else {
        return Ok(());
    };
    text.extend_from_slice(b"order ")?;
    text.extend_from_slice(order.name.name.as_bytes())?;
    append_weights(alloc, order.weights.as_slice(), text)?;
    text.push(b'\n')?;
    Ok(())
}

/// Appends ` : NAME = NUMBER, NAME = NUMBER`.
fn append_weights(
    alloc: Global,
    weights: &[RawWeight],
    text: &mut Vec<u8>,
) -> Result<(), OutOfMemory>
    ensures { OnOk result (text.new.items ≡ text.old.items ++ weights_printed weights.now) }
{
    let Some((first, others)) = front(weights) else {
        return Ok(());
    };
    text.extend_from_slice(b" : ")?;
    append_weight(alloc, first, text)?;
    for other in others {
        text.extend_from_slice(b", ")?;
        append_weight(alloc, other, text)?;
    }
    Ok(())
}

/// Appends `NAME = NUMBER`.
fn append_weight(alloc: Global, weight: &RawWeight, text: &mut Vec<u8>) -> Result<(), OutOfMemory>
    ensures { OnOk result (text.new.items ≡ text.old.items ++ weight_printed weight.now) }
{
    text.extend_from_slice(weight.name.name.as_bytes())?;
    text.extend_from_slice(b" = ")?;
    append_number(alloc, weight.weight, text)?;
    Ok(())
}

fn append_rules(rules: &[RawRule], text: &mut Vec<u8>) -> Result<(), OutOfMemory>
    ensures { OnOk result (text.new.items ≡ text.old.items ++ flat_map rule_line rules.now) }
{
    for rule in rules {
        append_rule(rule, text)?;
    }
    Ok(())
}

/// Appends `rule LEFT = RIGHT if TEST unless TEST`.
fn append_rule(rule: &RawRule, text: &mut Vec<u8>) -> Result<(), OutOfMemory>
    ensures { OnOk result (text.new.items ≡ text.old.items ++ rule_line rule.now) }
{
    text.extend_from_slice(b"rule ")?;
    append_sides(&rule.left, &rule.right, text)?;
    append_guards(rule.guards.as_slice(), text)?;
    text.push(b'\n')?;
    Ok(())
}

fn append_guards(guards: &[RawGuard], text: &mut Vec<u8>) -> Result<(), OutOfMemory>
    ensures { OnOk result (text.new.items ≡ text.old.items ++ flat_map guard_printed guards.now) }
{
    for guard in guards {
        append_guard(guard, text)?;
    }
    Ok(())
}

/// Appends ` if TEST` or ` unless TEST`.
fn append_guard(guard: &RawGuard, text: &mut Vec<u8>) -> Result<(), OutOfMemory>
    ensures { OnOk result (text.new.items ≡ text.old.items ++ guard_printed guard.now) }
{
    text.extend_from_slice(if guard.wanted { b" if " } else { b" unless " })?;
    append_term(&guard.test, text)?;
    Ok(())
}

fn append_goals(goals: &[RawGoal], text: &mut Vec<u8>) -> Result<(), OutOfMemory>
    ensures { OnOk result (text.new.items ≡ text.old.items ++ flat_map goal_line goals.now) }
{
    for goal in goals {
        append_goal(goal, text)?;
    }
    Ok(())
}

/// Appends `goal NAME(NAME : NAME, NAME : NAME) : CLAUSE`.
fn append_goal(goal: &RawGoal, text: &mut Vec<u8>) -> Result<(), OutOfMemory>
    ensures { OnOk result (text.new.items ≡ text.old.items ++ goal_line goal.now) }
{
    text.extend_from_slice(b"goal ")?;
    text.extend_from_slice(goal.head.name.as_bytes())?;
    append_binds(goal.binds.as_slice(), text)?;
    text.extend_from_slice(b" :")?;
    append_clause(goal.premises.as_slice(), goal.conclusions.as_slice(), text)?;
    text.push(b'\n')?;
    Ok(())
}

/// Appends `(NAME : NAME, NAME : NAME)`.
fn append_binds(binds: &[RawBind], text: &mut Vec<u8>) -> Result<(), OutOfMemory>
    ensures { OnOk result (text.new.items ≡ text.old.items ++ listed (map bind_printed binds.now)) }
{
    let Some((first, others)) = front(binds) else {
        return Ok(());
    };
    text.push(b'(')?;
    append_bind(first, text)?;
    for other in others {
        text.extend_from_slice(b", ")?;
        append_bind(other, text)?;
    }
    text.push(b')')?;
    Ok(())
}

/// Appends `NAME : NAME`.
fn append_bind(bind: &RawBind, text: &mut Vec<u8>) -> Result<(), OutOfMemory>
    ensures { OnOk result (text.new.items ≡ text.old.items ++ bind_printed bind.now) }
{
    text.extend_from_slice(bind.name.name.as_bytes())?;
    text.extend_from_slice(b" : ")?;
    text.extend_from_slice(bind.sort.name.as_bytes())?;
    Ok(())
}

/// Appends ` PREMISE, PREMISE => CONCLUSION | CONCLUSION`.
fn append_clause(
    premises: &[RawEq],
    conclusions: &[RawEq],
    text: &mut Vec<u8>,
) -> Result<(), OutOfMemory>
    ensures { OnOk result (text.new.items ≡ text.old.items
        ++ clause_printed premises.now conclusions.now) }
{
    append_equations(premises, b", ", text)?;
    append_arrow(premises, conclusions, text)?;
    append_equations(conclusions, b" | ", text)?;
    Ok(())
}

/// Appends ` =>`, but nothing if there are conclusions only.
fn append_arrow(
    premises: &[RawEq],
    conclusions: &[RawEq],
    text: &mut Vec<u8>,
) -> Result<(), OutOfMemory>
    ensures { OnOk result (text.new.items ≡ text.old.items
        ++ arrow_printed premises.now conclusions.now) }
{
    if !premises.is_empty() || conclusions.is_empty() {
        text.extend_from_slice(b" =>")?;
    }
    Ok(())
}

/// Appends a blank and the equations, with `between` between them, and nothing if there is
/// none.
fn append_equations(
    equations: &[RawEq],
    between: &[u8],
    text: &mut Vec<u8>,
) -> Result<(), OutOfMemory>
    ensures { OnOk result (text.new.items ≡ text.old.items
        ++ spaced between.now (map equation_printed equations.now)) }
{
    let Some((first, others)) = front(equations) else {
        return Ok(());
    };
    text.push(b' ')?;
    append_sides(&first.left, &first.right, text)?;
    for other in others {
        text.extend_from_slice(between)?;
        append_sides(&other.left, &other.right, text)?;
    }
    Ok(())
}

/// Appends `LEFT = RIGHT`.
fn append_sides(left: &RawTerm, right: &RawTerm, text: &mut Vec<u8>) -> Result<(), OutOfMemory>
    ensures { OnOk result (text.new.items ≡ text.old.items ++ sides_printed left.now right.now) }
{
    append_term(left, text)?;
    text.extend_from_slice(b" = ")?;
    append_term(right, text)?;
    Ok(())
}

/// Appends `NAME(TERM, TERM)`.
#[cycle(append)]
fn append_term(term: &RawTerm, text: &mut Vec<u8>) -> Result<(), OutOfMemory>
    ensures { OnOk result (text.new.items ≡ text.old.items ++ term_printed term.now) }
{
    text.extend_from_slice(term.name.as_bytes())?;
    let Some((first, others)) = front(term.args.as_slice()) else {
        return Ok(());
    };
    text.push(b'(')?;
    append_term(first, text)?;
    append_others(others, text)?;
    text.push(b')')?;
    Ok(())
}

/// Appends the terms, each after a comma and a space.
#[cycle(append)]
fn append_others(terms: &[RawTerm], text: &mut Vec<u8>) -> Result<(), OutOfMemory>
    ensures { OnOk result (text.new.items ≡ text.old.items
        ++ others_printed (raw_trees terms.now)) }
{
    let Some((first, others)) = front(terms) else {
        return Ok(());
    };
    text.extend_from_slice(b", ")?;
    append_term(first, text)?;
    append_others(others, text)
}
