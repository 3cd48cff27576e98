//! Premises and conclusions.

ghost use Rattle.std.specs.Prelude.{◌≡◌, ◌+◌, ◌∷◌, [], None, IsTrue, OnOk, IfOk};
ghost use Rattle.std.specs.Bool.{MatchBool};
ghost use Rattle.spec_grammar.specs.Grammar.{sign, sides_text, conclusions_text, IsClause};
ghost use Rattle.spec_grammar.specs.Items.{items_of};
ghost use Rattle.spec_grammar.specs.Limits.{premise_mark, conclusion_mark};
ghost use Rattle.spec_grammar.specs.Symbols.{clause as clause_symbol, commas as commas_symbol};
ghost use Rattle.spec_grammar.specs.Symbols.{conclusions as conclusions_symbol};
ghost use Rattle.spec_grammar.specs.Symbols.{bars as bars_symbol};
ghost use Rattle.spec_grammar.specs.declared.keys.Key.TheVariants.{Comma, Bar, Arrow};
ghost use Rattle.spec_syntax.specs.Reading.{Lacks, BeginsPremises, LacksPremises, Reads, ReadsAs};
ghost use Rattle.spec_syntax.specs.Reading.{ReadsTo, ReadsNext, ReadsItem, ReadsBars};
ghost use Rattle.spec_syntax.specs.Reading.{ReadsPremises};

use crate::stop::Stop;
use crate::words::{Source, over};
use spec_grammar::{Key, LimitKind, MAX_CONCLUSIONS, MAX_PREMISES, RawEq};
use spec_text::Token;
use term_core::Seq;

/// The two lists of a goal.
#[derive(Drop)]
pub(crate) struct Clause {
    pub(crate) premises: Seq<RawEq>,
    pub(crate) conclusions: Seq<RawEq>,
}

impl<'a> Source<'a> {
    /// A clause: premises and conclusions with an arrow between them, or conclusions only.
    pub(crate) fn clause<'t>(&self, tokens: &'t [Token]) -> Result<(Clause, &'t [Token]), Stop>
        ensures { ReadsAs (λ x. IsClause x.0.premises x.0.conclusions)
            (λ x. items_of self.now.bytes.now x.1.now) (clause_symbol ∷ [])
            (items_of self.now.bytes.now tokens.now) result }
    {
        if let Some(next) = self.after_key(tokens, Key::Arrow) {
            let premises = Seq::new(self.alloc);
            let (conclusions, rest) = self.conclusions(next)?;
            return Ok((
                Clause {
                    premises,
                    conclusions,
                },
                rest,
            ));
        }
        let (first, rest) = self.equation(tokens, None)?;
        if self.begins_premises(rest) {
            let (premises, rest) = self.premises(first, rest)?;
            let (conclusions, rest) = self.conclusions(rest)?;
            return Ok((
                Clause {
                    premises,
                    conclusions,
                },
                rest,
            ));
        }
        let premises = Seq::new(self.alloc);
        let (conclusions, rest) = self.more_conclusions(first, rest)?;
        Ok((
            Clause {
                premises,
                conclusions,
            },
            rest,
        ))
    }

    /// Whether a comma or an arrow comes next.
    fn begins_premises(&self, tokens: &[Token]) -> bool
        ensures { MatchBool result (BeginsPremises (items_of self.now.bytes.now tokens.now))
            (LacksPremises (items_of self.now.bytes.now tokens.now)) }
    {
        self.after_key(tokens, Key::Comma).is_some() || self.after_key(tokens, Key::Arrow).is_some()
    }

    /// The premises after the first one, and the arrow after them.
    fn premises<'t>(
        &self,
        first: RawEq,
        tokens: &'t [Token],
    ) -> Result<(Seq<RawEq>, &'t [Token]), Stop>
        ensures { ReadsPremises first (λ x. x.0) (λ x. items_of self.now.bytes.now x.1.now)
            (items_of self.now.bytes.now tokens.now) result }
    {
        let mut made = Seq::new(self.alloc);
        made.push(first)?;
        let mut rest = tokens;
        while let Some((premise, after)) = self.next_premise(rest, made.len())? {
            made.push(premise)?;
            rest = after;
        }
        let closed = self.expect_arrow(rest, made.len())?;
        Ok((made, closed))
    }

    /// The arrow after `n` premises, if no comma comes next.
    #[tactic(auto, unfolding(spec_grammar::specs::Symbols::run))]
    fn expect_arrow<'t>(&self, tokens: &'t [Token], n: usize) -> Result<&'t [Token], Stop>
        requires { Lacks Comma (items_of self.now.bytes.now tokens.now) }
        ensures { ReadsTo (λ x v. sign Arrow ∷ v) (λ x. items_of self.now.bytes.now x.now)
            (commas_symbol n ∷ []) (λ x. conclusions_symbol ∷ [])
            (items_of self.now.bytes.now tokens.now) result }
    {
        self.expect(tokens, Key::Arrow)
    }

    /// The premise after a comma, with `n` premises before it; None if no comma comes next.
    #[tactic(auto, unfolding(spec_grammar::specs::Symbols::run))]
    fn next_premise<'t>(
        &self,
        tokens: &'t [Token],
        n: usize,
    ) -> Result<Option<(RawEq, &'t [Token])>, Stop>
        ensures { ReadsItem (λ x v. sign Comma ∷ sides_text (premise_mark n) x.0.left x.0.right v)
            (λ x. items_of self.now.bytes.now x.1.now) (commas_symbol n) (commas_symbol (n + 1))
            (Lacks Comma) (items_of self.now.bytes.now tokens.now) result }
    {
        let Some(next) = self.after_key(tokens, Key::Comma) else {
            return Ok(None);
        };
        let (premise, rest) = self.equation(next, over(n, MAX_PREMISES, LimitKind::Premises))?;
        Ok(Some((premise, rest)))
    }

    /// The conclusions after an arrow, if there are any.
    #[tactic(auto, unfolding(spec_grammar::specs::Symbols::run))]
    fn conclusions<'t>(&self, tokens: &'t [Token]) -> Result<(Seq<RawEq>, &'t [Token]), Stop>
        ensures { Reads (λ x. conclusions_text x.0) (λ x. items_of self.now.bytes.now x.1.now)
            (conclusions_symbol ∷ []) (items_of self.now.bytes.now tokens.now) result }
    {
        if !self.begins_word(tokens) {
            return Ok((Seq::new(self.alloc), tokens));
        }
        let (first, rest) = self.equation(tokens, None)?;
        self.more_conclusions(first, rest)
    }

    /// The conclusions after the first one.
    fn more_conclusions<'t>(
        &self,
        first: RawEq,
        tokens: &'t [Token],
    ) -> Result<(Seq<RawEq>, &'t [Token]), Stop>
        ensures { ReadsBars first (λ x. x.0) (λ x. items_of self.now.bytes.now x.1.now)
            (items_of self.now.bytes.now tokens.now) result }
    {
        let mut made = Seq::new(self.alloc);
        made.push(first)?;
        let mut rest = tokens;
        while let Some((conclusion, after)) = self.next_conclusion(rest, made.len())? {
            made.push(conclusion)?;
            rest = after;
        }
        Ok((made, rest))
    }

    /// The conclusion after a bar, with `n` conclusions before it; None if no bar comes next.
    #[tactic(auto, unfolding(spec_grammar::specs::Symbols::run))]
    fn next_conclusion<'t>(
        &self,
        tokens: &'t [Token],
        n: usize,
    ) -> Result<Option<(RawEq, &'t [Token])>, Stop>
        ensures { ReadsNext (λ x v. sign Bar ∷ sides_text (conclusion_mark n) x.0.left x.0.right v)
            (λ x. items_of self.now.bytes.now x.1.now) (bars_symbol n) (bars_symbol (n + 1))
            (items_of self.now.bytes.now tokens.now) result }
    {
        let Some(next) = self.after_key(tokens, Key::Bar) else {
            return Ok(None);
        };
        let over = over(n, MAX_CONCLUSIONS, LimitKind::Conclusions);
        let (conclusion, rest) = self.equation(next, over)?;
        Ok(Some((conclusion, rest)))
    }
}
