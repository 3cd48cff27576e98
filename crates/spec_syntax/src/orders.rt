//! Equal and status lines, and the order line.

ghost use Rattle.std.specs.Prelude.{◌+◌, ◌∷◌, []};
ghost use Rattle.spec_grammar.specs.Grammar.{sign, name_text, numeral_text, weight_text};
ghost use Rattle.spec_grammar.specs.Grammar.{weights_text, order_text, AreEquals, AreStatuses};
ghost use Rattle.spec_grammar.specs.Items.{items_of};
ghost use Rattle.spec_grammar.specs.Limits.{arity_mark};
ghost use Rattle.spec_grammar.specs.Symbols.{equals as equals_symbol};
ghost use Rattle.spec_grammar.specs.Symbols.{more_equal as more_equal_symbol};
ghost use Rattle.spec_grammar.specs.Symbols.{statuses as statuses_symbol};
ghost use Rattle.spec_grammar.specs.Symbols.{numeral as numeral_symbol};
ghost use Rattle.spec_grammar.specs.Symbols.{more_numbers as more_numbers_symbol};
ghost use Rattle.spec_grammar.specs.Symbols.{order as order_symbol, weights as weights_symbol};
ghost use Rattle.spec_grammar.specs.Symbols.{more_weights as more_weights_symbol, weight_then};
ghost use Rattle.spec_grammar.specs.declared.keys.Key.TheVariants.{Comma, Equal, Status};
ghost use Rattle.spec_syntax.specs.Reading.{Reads, ReadsAs, ReadsNext, ReadsNextAs};
ghost use Rattle.spec_syntax.specs.ReadingOrders.{ReadsOrder, AreNumbers, equal_symbols};
ghost use Rattle.spec_syntax.specs.ReadingOrders.{number_symbols, status_symbols};

use crate::stop::Stop;
use crate::words::{Source, over};
use spec_grammar::{
    Key, LimitKind, MAX_ARGUMENTS, RawEqual, RawName, RawOrder, RawStatus, RawWeight,
};
use spec_text::Token;
use term_core::Seq;

/// The lines on the order of terms.
#[derive(Drop)]
pub(crate) struct OrderLines {
    pub(crate) equals: Seq<RawEqual>,
    pub(crate) statuses: Seq<RawStatus>,
    pub(crate) order: Option<RawOrder>,
}

impl<'a> Source<'a> {
    /// The lines of a format on the order of terms, of which the first format has none.
    pub(crate) fn order<'t>(
        &self,
        tokens: &'t [Token],
        version: u32,
    ) -> Result<(OrderLines, &'t [Token]), Stop>
        ensures { ReadsOrder version (λ x. x.0) (λ x. items_of self.now.bytes.now x.1.now)
            (items_of self.now.bytes.now tokens.now) result }
    {
        if version != 2 {
            let equals = Seq::new(self.alloc);
            let statuses = Seq::new(self.alloc);
            let lines = OrderLines {
                equals,
                statuses,
                order: None,
            };
            return Ok((lines, tokens));
        }
        let (equals, rest) = self.equals(tokens)?;
        let (statuses, rest) = self.statuses(rest)?;
        let (order, rest) = self.order_line(rest)?;
        let lines = OrderLines {
            equals,
            statuses,
            order,
        };
        Ok((lines, rest))
    }

    /// The equal lines.
    fn equals<'t>(&self, tokens: &'t [Token]) -> Result<(Seq<RawEqual>, &'t [Token]), Stop>
        ensures { ReadsAs (λ x. AreEquals x.0) (λ x. items_of self.now.bytes.now x.1.now)
            (equals_symbol ∷ []) (items_of self.now.bytes.now tokens.now) result }
    {
        let mut made = Seq::new(self.alloc);
        let mut rest = tokens;
        while let Some((equal, after)) = self.next_equal(rest)? {
            made.push(equal)?;
            rest = after;
        }
        Ok((made, rest))
    }

    /// The next equal line; None if none comes next.
    #[tactic(auto, unfolding(spec_grammar::specs::Symbols::run))]
    fn next_equal<'t>(&self, tokens: &'t [Token]) -> Result<Option<(RawEqual, &'t [Token])>, Stop>
        ensures { ReadsNextAs (λ x. AreEquals (x.0 ∷ [])) (λ x. items_of self.now.bytes.now x.1.now)
            equals_symbol equals_symbol (items_of self.now.bytes.now tokens.now) result }
    {
        let Some(next) = self.after_key(tokens, Key::Equal) else {
            return Ok(None);
        };
        let (equal, rest) = self.equal(next)?;
        Ok(Some((equal, rest)))
    }

    /// An equal line after its first word, with two names at least.
    fn equal<'t>(&self, tokens: &'t [Token]) -> Result<(RawEqual, &'t [Token]), Stop>
        ensures { ReadsAs (λ x text. AreEquals (x.0 ∷ []) (sign Equal ∷ text))
            (λ x. items_of self.now.bytes.now x.1.now) equal_symbols
            (items_of self.now.bytes.now tokens.now) result }
    {
        let (first, rest) = self.name(tokens, None)?;
        let rest = self.expect(rest, Key::Comma)?;
        let (second, mut rest) = self.name(rest, None)?;
        let mut names = Seq::new(self.alloc);
        names.push(first)?;
        names.push(second)?;
        while let Some((name, after)) = self.next_equal_name(rest)? {
            names.push(name)?;
            rest = after;
        }
        Ok((RawEqual { names }, rest))
    }

    /// The name after a comma of an equal line; None if no comma comes next.
    #[tactic(auto, unfolding(spec_grammar::specs::Symbols::run))]
    fn next_equal_name<'t>(
        &self,
        tokens: &'t [Token],
    ) -> Result<Option<(RawName, &'t [Token])>, Stop>
        ensures { ReadsNext (λ x v. sign Comma ∷ name_text None x.0 v)
            (λ x. items_of self.now.bytes.now x.1.now) more_equal_symbol more_equal_symbol
            (items_of self.now.bytes.now tokens.now) result }
    {
        let Some(next) = self.after_key(tokens, Key::Comma) else {
            return Ok(None);
        };
        let (name, rest) = self.name(next, None)?;
        Ok(Some((name, rest)))
    }

    /// The status lines.
    fn statuses<'t>(&self, tokens: &'t [Token]) -> Result<(Seq<RawStatus>, &'t [Token]), Stop>
        ensures { ReadsAs (λ x. AreStatuses x.0) (λ x. items_of self.now.bytes.now x.1.now)
            (statuses_symbol ∷ []) (items_of self.now.bytes.now tokens.now) result }
    {
        let mut made = Seq::new(self.alloc);
        let mut rest = tokens;
        while let Some((status, after)) = self.next_status(rest)? {
            made.push(status)?;
            rest = after;
        }
        Ok((made, rest))
    }

    /// The next status line; None if none comes next.
    #[tactic(auto, unfolding(spec_grammar::specs::Symbols::run))]
    fn next_status<'t>(&self, tokens: &'t [Token]) -> Result<Option<(RawStatus, &'t [Token])>, Stop>
        ensures { ReadsNextAs (λ x. AreStatuses (x.0 ∷ []))
            (λ x. items_of self.now.bytes.now x.1.now) statuses_symbol statuses_symbol
            (items_of self.now.bytes.now tokens.now) result }
    {
        let Some(next) = self.after_key(tokens, Key::Status) else {
            return Ok(None);
        };
        let (status, rest) = self.status(next)?;
        Ok(Some((status, rest)))
    }

    /// A status line after its first word.
    fn status<'t>(&self, tokens: &'t [Token]) -> Result<(RawStatus, &'t [Token]), Stop>
        ensures { ReadsAs (λ x text. AreStatuses (x.0 ∷ []) (sign Status ∷ text))
            (λ x. items_of self.now.bytes.now x.1.now) status_symbols
            (items_of self.now.bytes.now tokens.now) result }
    {
        let (head, rest) = self.name(tokens, None)?;
        let rest = self.expect(rest, Key::LeftPar)?;
        let (numbers, rest) = self.numbers(rest)?;
        let rest = self.expect(rest, Key::RightPar)?;
        Ok((RawStatus { head, numbers }, rest))
    }

    /// The numbers of a status line, at least one.
    #[tactic(auto, unfolding(spec_grammar::specs::Symbols::run))]
    fn numbers<'t>(&self, tokens: &'t [Token]) -> Result<(Seq<u32>, &'t [Token]), Stop>
        ensures { ReadsAs (λ x. AreNumbers x.0) (λ x. items_of self.now.bytes.now x.1.now)
            number_symbols (items_of self.now.bytes.now tokens.now) result }
    {
        let mut made = Seq::new(self.alloc);
        let (first, mut rest) = self.number(tokens, over(0, MAX_ARGUMENTS, LimitKind::Arity))?;
        made.push(first)?;
        while let Some((number, after)) = self.next_number(rest, made.len())? {
            made.push(number)?;
            rest = after;
        }
        Ok((made, rest))
    }

    /// The number after a comma, with `n` numbers before it; None if no comma comes next.
    #[tactic(auto, unfolding(spec_grammar::specs::Symbols::run))]
    fn next_number<'t>(
        &self,
        tokens: &'t [Token],
        n: usize,
    ) -> Result<Option<(u32, &'t [Token])>, Stop>
        ensures { ReadsNext (λ x v. sign Comma ∷ numeral_text (arity_mark n) x.0 v)
            (λ x. items_of self.now.bytes.now x.1.now) (more_numbers_symbol n)
            (more_numbers_symbol (n + 1)) (items_of self.now.bytes.now tokens.now) result }
    {
        let Some(next) = self.after_key(tokens, Key::Comma) else {
            return Ok(None);
        };
        let (number, rest) = self.number(next, over(n, MAX_ARGUMENTS, LimitKind::Arity))?;
        Ok(Some((number, rest)))
    }

    /// The line of the ordering, if there is one.
    #[tactic(auto, unfolding(spec_grammar::specs::Symbols::run))]
    fn order_line<'t>(&self, tokens: &'t [Token]) -> Result<(Option<RawOrder>, &'t [Token]), Stop>
        ensures { Reads (λ x. order_text x.0) (λ x. items_of self.now.bytes.now x.1.now)
            (order_symbol ∷ []) (items_of self.now.bytes.now tokens.now) result }
    {
        let Some(next) = self.after_key(tokens, Key::Order) else {
            return Ok((None, tokens));
        };
        let (name, rest) = self.name(next, None)?;
        let (weights, rest) = self.weights(rest)?;
        Ok((Some(RawOrder { name, weights }), rest))
    }

    /// The weights after a colon, if there is one.
    #[tactic(auto, unfolding(spec_grammar::specs::Symbols::run))]
    fn weights<'t>(&self, tokens: &'t [Token]) -> Result<(Seq<RawWeight>, &'t [Token]), Stop>
        ensures { Reads (λ x. weights_text x.0) (λ x. items_of self.now.bytes.now x.1.now)
            (weights_symbol ∷ []) (items_of self.now.bytes.now tokens.now) result }
    {
        let mut made = Seq::new(self.alloc);
        let Some(next) = self.after_key(tokens, Key::Colon) else {
            return Ok((made, tokens));
        };
        let (first, mut rest) = self.weight(next)?;
        made.push(first)?;
        while let Some((weight, after)) = self.next_weight(rest)? {
            made.push(weight)?;
            rest = after;
        }
        Ok((made, rest))
    }

    /// The weight after a comma; None if no comma comes next.
    #[tactic(auto, unfolding(spec_grammar::specs::Symbols::run))]
    fn next_weight<'t>(&self, tokens: &'t [Token]) -> Result<Option<(RawWeight, &'t [Token])>, Stop>
        ensures { ReadsNext (λ x v. sign Comma ∷ weight_text x.0 v)
            (λ x. items_of self.now.bytes.now x.1.now) more_weights_symbol more_weights_symbol
            (items_of self.now.bytes.now tokens.now) result }
    {
        let Some(next) = self.after_key(tokens, Key::Comma) else {
            return Ok(None);
        };
        let (weight, rest) = self.weight(next)?;
        Ok(Some((weight, rest)))
    }

    /// The weight of a symbol.
    fn weight<'t>(&self, tokens: &'t [Token]) -> Result<(RawWeight, &'t [Token]), Stop>
        ensures { Reads (λ x. weight_text x.0) (λ x. items_of self.now.bytes.now x.1.now)
            (weight_then []) (items_of self.now.bytes.now tokens.now) result }
    {
        let (name, rest) = self.name(tokens, None)?;
        let rest = self.expect(rest, Key::Equals)?;
        let (weight, rest) = self.number(rest, None)?;
        Ok((RawWeight { name, weight }, rest))
    }

    /// The number that has to come next, in a place that may pass a limit.
    #[tactic(auto, unfolding(spec_grammar::specs::Symbols::run))]
    fn number<'t>(
        &self,
        tokens: &'t [Token],
        over: Option<LimitKind>,
    ) -> Result<(u32, &'t [Token]), Stop>
        ensures { Reads (λ x. numeral_text over x.0) (λ x. items_of self.now.bytes.now x.1.now)
            (numeral_symbol over ∷ []) (items_of self.now.bytes.now tokens.now) result }
    {
        let Some((number, rest)) = self.after_number(tokens) else {
            return Err(self.fault(tokens, None));
        };
        self.within(tokens, over)?;
        Ok((number, rest))
    }
}
