//! `Machine`: a specification compiled once.

ghost use Rattle.std.specs.Prelude.{◌≡◌, ◌≤◌, ◌<◌, ◌+◌, ℕ, [], IfOk, length};
ghost use Rattle.term_core.specs.Variables.{Occurs};
ghost use Rattle.spec_core.specs.TermText.{SymbolsAreInRange};
ghost use Rattle.spec_core.specs.WellSorted.{IsWellSorted};
ghost use Rattle.rule_code.specs.Blocks.{AddsCode};
ghost use Rattle.rule_code.specs.Lengths.{term_length, rules_length};
ghost use Rattle.rule_code.specs.Programs.{IsSide, first_numbers};

use rule_code::{Code, DecisionTree, RuleCode, compile_rules, emit_body, grow_trees};
use spec_core::Spec;
use std::alloc::Global;
use std::marker::Model;
use term_core::{OutOfMemory, Term};

/// A specification's code, compiled once, and the code of the terms that are evaluated. Contracts
/// see the specification and the list of all instructions.
#[derive(Drop)]
pub struct Machine<'a> {
    pub(crate) spec: &'a Spec,
    pub(crate) code: Code,
    pub(crate) rules: Vec<RuleCode>,
    pub(crate) trees: Vec<DecisionTree>,
}

impl<'a> Model for Machine<'a> {
    ghost use Rattle.rule_code.specs.Programs.{Program, program, IsProgram};
    ghost use Rattle.spec_core.specs.contracts.records.Spec as spec_contract;
    ghost use Rattle.std.specs.Coded.{codes};

    ghost Value = { Program };

    ghost coded = { Prim.hlevel (codes, spec_contract.the_row.coded) };

    ghost view = { λ m. program m.spec.now m.code };

    ghost invariant = { λ m. IsProgram m.spec.now m.code m.rules.items m.trees.items };
}

impl<'a> Machine<'a> {
    /// Compiles a specification.
    pub fn new(alloc: Global, spec: &'a Spec) -> Result<Machine<'a>, OutOfMemory>
        requires { IsWellSorted spec.now }
        ensures spec { IfOk result (λ made. made.spec ≡ spec.now) }
        ensures few { IfOk result (λ made. length made.code ≤ rules_length spec.now.rules) }
    {
        let mut code = Code::new(alloc);
        let rules = compile_rules(alloc, spec, &mut code)?;
        let trees = grow_trees(alloc, spec)?;
        Ok(Machine {
            spec,
            code,
            rules,
            trees,
        })
    }

    /// Compiles a term with this many variables, and gives the place of its code.
    pub fn with_term(
        self,
        alloc: Global,
        term: &Term,
        variables: usize,
    ) -> Result<(Machine<'a>, usize), OutOfMemory>
        requires symbols { SymbolsAreInRange self.spec.sig term.now }
        requires variables { (n : ℕ) → Occurs n term.now → n < variables }
        ensures side { IfOk result (λ made. IsSide made.0 made.1 variables term.now) }
        ensures spec { IfOk result (λ made. made.0.spec ≡ self.entry.spec) }
        ensures adds { IfOk result (λ made. AddsCode self.entry.code made.0.code) }
        ensures few { IfOk result (λ made. length made.0.code
            ≤ length self.entry.code + term_length term.now) }
    {
        let homes = first_numbers(alloc, variables)?;
        let Machine {
            spec,
            mut code,
            rules,
            trees,
        } = self;
        let place = code.len();
        emit_body(alloc, &spec.sig, &homes, term, variables, &mut code)?;
        let made = Machine {
            spec,
            code,
            rules,
            trees,
        };
        Ok((made, place))
    }
}

/// The numbers below `count`.
fn first_numbers(alloc: Global, count: usize) -> Result<Vec<usize>, OutOfMemory>
    ensures { IfOk result (λ made. made.items ≡ first_numbers count) }
{
    let mut made = Vec::with_capacity(alloc, count)?;
    for number in 0..count {
        made.push(number)?;
    }
    Ok(made)
}
