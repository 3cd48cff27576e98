//! The line of a step.

ghost use Rattle.std.specs.Prelude.{◌≡◌, ◌++◌, ◌∷◌, [], OnOk, true, false, codes};
ghost use Rattle.std.specs.List.{AllByRecursion};
ghost use Rattle.spec_core.specs.TermText.{SymbolsAreInRange};
ghost use Rattle.proof_script.specs.Words.{equation, line_text, number, patterns, place, side};
ghost use Rattle.proof_script.specs.Words.{terms, variable};
ghost use Rattle.proof_script.specs.Steps.{step_line};
ghost use Rattle.proof_script.specs.Ranges.{LineIsInRange, WordIsInRange};
ghost use Rattle.proof_script.specs.Written.{word_of};

use crate::words::{Word, append_line};
use clause_core::{Place, Step};
use spec_core::Signature;
use std::alloc::Global;
use term_core::{OutOfMemory, Term};

/// Appends the line of a step.
pub fn append_step(
    alloc: Global,
    sig: &Signature,
    step: &Step,
    text: &mut Vec<u8>,
) -> Result<(), OutOfMemory>
    requires { LineIsInRange sig.now (step_line step.now) }
    ensures { OnOk result
        (text.new.items ≡ text.old.items ++ line_text sig.now (step_line step.now)) }
{
    let printer = Printer { alloc, sig };
    match step {
        Step::Trivial(k) => printer.equation(b"trivial", true, *k, text),
        Step::Match(k, j) => printer.match_premise(*k, *j, text),
        Step::Absurd(j) => printer.equation(b"absurd", false, *j, text),
        Step::Subsume(node, ts) => {
            let node = Word::Number(*node as usize);
            printer.instance(b"subsume", node, ts.as_slice(), text)
        }
        Step::ByLemma(goal, ts) => {
            printer.instance(b"by-lemma", Word::Name(goal), ts.as_slice(), text)
        }
        Step::Rule(place, rule) => printer.by_rule(b"rule", place, *rule, text),
        Step::Case(place, rule) => printer.by_rule(b"case", place, *rule, text),
        Step::Decompose(conclusion, n) => printer.equation(b"decompose", *conclusion, *n, text),
        Step::Clash(k) => printer.equation(b"clash", true, *k, text),
        Step::Drop(conclusion, n) => printer.equation(b"drop", *conclusion, *n, text),
        Step::Solve(j) => printer.equation(b"solve", false, *j, text),
        Step::Cover(var, ps) => printer.cover(var.0, ps.as_slice(), text),
        Step::Generalize(term) => append_line(alloc, sig, b"generalize", &[Word::Term(term)], text),
        Step::Context(place, j, left) => printer.context(place, *j, *left, text),
        Step::Hyp(node, ts, place, left) => {
            let node = Word::Number(*node as usize);
            printer.by_instance(b"hyp", node, ts.as_slice(), place, *left, text)
        }
        Step::Lemma(goal, ts, place, left) => {
            let goal = Word::Name(goal);
            printer.by_instance(b"lemma", goal, ts.as_slice(), place, *left, text)
        }
    }
}

/// Appends lines of the forms that several steps share, with the symbols' names of a signature.
#[derive(Drop)]
struct Printer<'a> {
    alloc: Global,
    sig: &'a Signature,
}

impl<'a> Printer<'a> {
    /// The line of a step at an equation.
    fn equation(
        &self,
        head: &[u8],
        conclusion: bool,
        k: u16,
        text: &mut Vec<u8>,
    ) -> Result<(), OutOfMemory>
        ensures { OnOk result (text.new.items ≡ text.old.items ++ line_text self.now.sig.now
            (record { head = head.now; words = equation conclusion k ∷ [] })) }
    {
        append_line(
            self.alloc,
            self.sig,
            head,
            &[Word::Equation(conclusion, k)],
            text,
        )
    }

    /// The line of `match`.
    fn match_premise(&self, k: u16, j: u16, text: &mut Vec<u8>) -> Result<(), OutOfMemory>
        ensures { OnOk result (text.new.items ≡ text.old.items ++ line_text self.now.sig.now
            (record { head = codes "match"; words = equation true k ∷ equation false j ∷ [] })) }
    {
        let words = [Word::Equation(true, k), Word::Equation(false, j)];
        append_line(self.alloc, self.sig, b"match", &words, text)
    }

    /// The line of `cover`.
    fn cover(&self, var: u32, ps: &[Term], text: &mut Vec<u8>) -> Result<(), OutOfMemory>
        requires { AllByRecursion (SymbolsAreInRange self.now.sig.now) ps.now }
        ensures { OnOk result (text.new.items ≡ text.old.items ++ line_text self.now.sig.now
            (record { head = codes "cover"; words = variable var ∷ patterns ps.now ∷ [] })) }
    {
        let words = [Word::Variable(var), Word::Patterns(ps)];
        append_line(self.alloc, self.sig, b"cover", &words, text)
    }

    /// The line of `context`.
    fn context(&self, at: &Place, j: u16, left: bool, text: &mut Vec<u8>) -> Result<(), OutOfMemory>
        ensures { OnOk result (text.new.items ≡ text.old.items ++ line_text self.now.sig.now
            (record {
              head = codes "context";
              words = place at.now ∷ equation false j ∷ side left ∷ [];
            })) }
    {
        let words = [Word::Place(at), Word::Equation(false, j), Word::Side(left)];
        append_line(self.alloc, self.sig, b"context", &words, text)
    }

    /// The line of a step by an instance of this node or goal.
    fn instance<'b>(
        &self,
        head: &[u8],
        source: Word<'b>,
        ts: &'b [Term],
        text: &mut Vec<u8>,
    ) -> Result<(), OutOfMemory>
        requires source { WordIsInRange self.now.sig.now (word_of source) }
        requires terms { AllByRecursion (SymbolsAreInRange self.now.sig.now) ts.now }
        ensures { OnOk result (text.new.items ≡ text.old.items ++ line_text self.now.sig.now
            (record { head = head.now; words = word_of source.entry ∷ terms ts.now ∷ [] })) }
    {
        append_line(self.alloc, self.sig, head, &[source, Word::Terms(ts)], text)
    }

    /// The line of a step that rewrites the term at a place by a rule.
    fn by_rule(
        &self,
        head: &[u8],
        at: &Place,
        rule: u32,
        text: &mut Vec<u8>,
    ) -> Result<(), OutOfMemory>
        ensures { OnOk result (text.new.items ≡ text.old.items ++ line_text self.now.sig.now
            (record { head = head.now; words = place at.now ∷ number rule ∷ [] })) }
    {
        let words = [Word::Place(at), Word::Number(rule as usize)];
        append_line(self.alloc, self.sig, head, &words, text)
    }

    /// The line of a step that rewrites the term at a place by an instance of this node or goal.
    fn by_instance<'b>(
        &self,
        head: &[u8],
        source: Word<'b>,
        ts: &'b [Term],
        at: &'b Place,
        left: bool,
        text: &mut Vec<u8>,
    ) -> Result<(), OutOfMemory>
        requires source { WordIsInRange self.now.sig.now (word_of source) }
        requires terms { AllByRecursion (SymbolsAreInRange self.now.sig.now) ts.now }
        ensures { OnOk result (text.new.items ≡ text.old.items ++ line_text self.now.sig.now
            (record {
              head = head.now;
              words = word_of source.entry ∷ terms ts.now ∷ place at.now ∷ side left ∷ [];
            })) }
    {
        let words = [source, Word::Terms(ts), Word::Place(at), Word::Side(left)];
        append_line(self.alloc, self.sig, head, &words, text)
    }
}
