//! Terms, with their nesting bounded.

ghost use Rattle.std.specs.Prelude.{◌≡◌, ◌≤◌, ◌<◌, ◌+◌, ◌∷◌, [], None};
ghost use Rattle.spec_grammar.specs.RawTree.{raw_trees};
ghost use Rattle.spec_grammar.specs.Grammar.{sign, term_text, args_text, sides_text};
ghost use Rattle.spec_grammar.specs.Items.{items_of};
ghost use Rattle.spec_grammar.specs.declared.keys.Key.TheVariants.{Comma};
ghost use Rattle.spec_grammar.specs.Limits.{term_mark};
ghost use Rattle.spec_grammar.specs.Symbols.{args as args_symbol, more as more_symbol, term_then};
ghost use Rattle.spec_grammar.specs.Symbols.{sides_then};
ghost use Rattle.spec_syntax.specs.Reading.{Reads, ReadsNext};

use crate::stop::Stop;
use crate::words::{Source, over};
use spec_grammar::{Key, LimitKind, MAX_ARGUMENTS, MAX_DEPTH, RawEq, RawTerm, RawTerms};
use spec_text::Token;

/// The limit that an argument passes, by its number from 0 and the number of words above it.
fn argument_over(depth: usize, n: usize) -> Option<LimitKind>
    ensures { result ≡ term_mark depth n }
{
    match over(n, MAX_ARGUMENTS, LimitKind::Arity) {
        Some(why) => Some(why),
        None => over(depth, MAX_DEPTH, LimitKind::Nesting),
    }
}

impl<'a> Source<'a> {
    /// A term with `depth` words above it, in a place that may pass a limit.
    #[cycle(term)]
    pub(crate) fn term<'t>(
        &self,
        tokens: &'t [Token],
        depth: usize,
        over: Option<LimitKind>,
    ) -> Result<(RawTerm, &'t [Token]), Stop>
        requires { over ≡ None → depth < 64 }
        ensures { Reads (λ x. term_text depth over x.0) (λ x. items_of self.now.bytes.now x.1.now)
            (term_then depth over []) (items_of self.now.bytes.now tokens.now) result }
    {
        let (word, rest) = self.name(tokens, over)?;
        let (args, rest) = self.args(rest, depth)?;
        Ok((RawTerm::new(word.name, word.at, args), rest))
    }

    /// The arguments in parentheses of a word with `depth` words above it, if there are any.
    #[cycle(term)]
    #[tactic(auto, unfolding(spec_grammar::specs::Symbols::run))]
    fn args<'t>(&self, tokens: &'t [Token], depth: usize) -> Result<(RawTerms, &'t [Token]), Stop>
        requires { depth < 64 }
        ensures { Reads (λ x. args_text depth (raw_trees x.0))
            (λ x. items_of self.now.bytes.now x.1.now) (args_symbol depth ∷ [])
            (items_of self.now.bytes.now tokens.now) result }
    {
        let mut made = RawTerms::new(self.alloc);
        let Some(opened) = self.after_key(tokens, Key::LeftPar) else {
            return Ok((made, tokens));
        };
        let (first, mut rest) = self.term(opened, depth + 1, argument_over(depth + 1, 0))?;
        made.push(first)?;
        while let Some((argument, after)) = self.next_argument(rest, depth + 1, made.len())? {
            made.push(argument)?;
            rest = after;
        }
        let closed = self.expect(rest, Key::RightPar)?;
        Ok((made, closed))
    }

    /// The argument after a comma, with `n` arguments before it; None if no comma comes next.
    #[cycle(term)]
    #[tactic(auto, unfolding(spec_grammar::specs::Symbols::run))]
    fn next_argument<'t>(
        &self,
        tokens: &'t [Token],
        depth: usize,
        n: usize,
    ) -> Result<Option<(RawTerm, &'t [Token])>, Stop>
        requires { depth ≤ 64 }
        ensures { ReadsNext (λ x v. sign Comma ∷ term_text depth (term_mark depth n) x.0 v)
            (λ x. items_of self.now.bytes.now x.1.now) (more_symbol depth n)
            (more_symbol depth (n + 1)) (items_of self.now.bytes.now tokens.now) result }
    {
        let Some(next) = self.after_key(tokens, Key::Comma) else {
            return Ok(None);
        };
        let (argument, rest) = self.term(next, depth, argument_over(depth, n))?;
        Ok(Some((argument, rest)))
    }

    /// An equation, whose first word may pass a limit.
    pub(crate) fn equation<'t>(
        &self,
        tokens: &'t [Token],
        over: Option<LimitKind>,
    ) -> Result<(RawEq, &'t [Token]), Stop>
        ensures { Reads (λ x. sides_text over x.0.left x.0.right)
            (λ x. items_of self.now.bytes.now x.1.now) (sides_then over [])
            (items_of self.now.bytes.now tokens.now) result }
    {
        let (left, rest) = self.term(tokens, 0, over)?;
        let rest = self.expect(rest, Key::Equals)?;
        let (right, rest) = self.term(rest, 0, None)?;
        Ok((RawEq { left, right }, rest))
    }
}
