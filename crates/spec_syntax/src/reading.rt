//! `read` and `read_term`: a whole text, and a term by itself.

ghost use Rattle.std.specs.Prelude.{◌≡◌, ◌≤◌, [], List, IfOk, IfErr, MatchResult, length};
ghost use Rattle.spec_grammar.specs.Derives.{TextDerives};
ghost use Rattle.spec_grammar.specs.Grammar.{IsSpecText, IsTermText};
ghost use Rattle.spec_grammar.specs.Items.{items_of};
ghost use Rattle.spec_grammar.specs.RawTree.{RawTree};
ghost use Rattle.spec_grammar.specs.Sizes.{words, HasFewWords};
ghost use Rattle.spec_grammar.specs.Symbols.{spec_symbols, term_symbols};
ghost use Rattle.spec_grammar.specs.declared.raw.RawSpec.{RawSpec};
ghost use Rattle.spec_syntax.specs.Faults.{IsAnswer, IsSyntaxFault, HasFault, TellsFault};
ghost use Rattle.spec_syntax.specs.Reading.{ReadsFormat};
ghost use Rattle.spec_syntax.specs.Wholes.{ReadsWhole, ReadsEnd, Settles, place_left};
ghost use Rattle.spec_syntax.specs.Wholes.{fault_of_stop};
ghost use Rattle.spec_syntax.specs.declared.fault.SyntaxFault.{SyntaxFault};

use crate::fault::SyntaxFault;
use crate::orders::OrderLines;
use crate::stop::Stop;
use crate::words::Source;
use spec_grammar::{Key, RawSpec, RawTerm};
use spec_text::{Token, scan};
use std::alloc::Global;
use term_core::front;

/// The specification that the bytes of a text derive, or their first fault: a fault of the tokens
/// before all others, else the first token with which no text goes on or that passes a limit. No
/// term has more words than the text has bytes.
pub fn read(alloc: Global, bytes: &[u8]) -> Result<RawSpec, SyntaxFault>
    ensures derived { IfOk result (TextDerives IsSpecText bytes.now) }
    ensures only { (raw : RawSpec) → TextDerives IsSpecText bytes.now raw → IsAnswer raw result }
    ensures fault { IfErr result (TellsFault IsSpecText bytes.now) }
    ensures exact { (fault : SyntaxFault) → HasFault IsSpecText bytes.now fault
        → IsSyntaxFault fault result }
    ensures few_words { IfOk result (HasFewWords (length bytes.now)) }
{
    read_spec(alloc, bytes)
}

/// The term that the bytes of a text derive, or their first fault, as [`read`] tells it. Of the
/// limits a term has those of names, arguments and nesting; its bytes have none.
pub fn read_term(alloc: Global, bytes: &[u8]) -> Result<RawTerm, SyntaxFault>
    ensures derived { IfOk result (TextDerives IsTermText bytes.now) }
    ensures only { (term : RawTree) → TextDerives IsTermText bytes.now term → IsAnswer term result }
    ensures fault { IfErr result (TellsFault IsTermText bytes.now) }
    ensures exact { (fault : SyntaxFault) → HasFault IsTermText bytes.now fault
        → IsSyntaxFault fault result }
    ensures few_words { IfOk result (λ term. words term ≤ length bytes.now) }
{
    read_one_term(alloc, bytes)
}

fn read_spec(alloc: Global, bytes: &[u8]) -> Result<RawSpec, SyntaxFault>
    ensures { Settles IsSpecText spec_symbols bytes.now result }
{
    let tokens = scan(alloc, bytes)?;
    let source = Source { alloc, bytes };
    match source.spec(&tokens) {
        Ok(raw) => Ok(raw),
        Err(stop) => Err(source.located(&tokens, stop)),
    }
}

fn read_one_term(alloc: Global, bytes: &[u8]) -> Result<RawTerm, SyntaxFault>
    ensures { Settles IsTermText term_symbols bytes.now result }
{
    let tokens = scan(alloc, bytes)?;
    let source = Source { alloc, bytes };
    match source.whole_term(&tokens) {
        Ok(term) => Ok(term),
        Err(stop) => Err(source.located(&tokens, stop)),
    }
}

impl<'a> Source<'a> {
    /// The specification of all the tokens.
    fn spec(&self, tokens: &[Token]) -> Result<RawSpec, Stop>
        ensures { ReadsWhole IsSpecText spec_symbols (items_of self.now.bytes.now tokens.now)
            result }
    {
        let rest = self.expect(tokens, Key::Spike)?;
        let (version, rest) = self.format(rest)?;
        let (sorts, rest) = self.sorts(rest, version)?;
        let (funs, rest) = self.functions(rest, version)?;
        let (lines, rest) = self.order(rest, version)?;
        let (rules, rest) = self.rules(rest, version)?;
        let (goals, rest) = self.goals(rest)?;
        self.expect_end(rest)?;
        let OrderLines {
            equals,
            statuses,
            order,
        } = lines;
        Ok(RawSpec {
            version,
            sorts,
            funs,
            equals,
            statuses,
            order,
            rules,
            goals,
        })
    }

    /// The number of a format that there is, which has to come next.
    #[tactic(auto, unfolding(spec_grammar::specs::Symbols::run))]
    fn format<'t>(&self, tokens: &'t [Token]) -> Result<(u32, &'t [Token]), Stop>
        ensures { ReadsFormat (λ x. x.0) (λ x. items_of self.now.bytes.now x.1.now)
            (items_of self.now.bytes.now tokens.now) result }
    {
        match self.after_number(tokens) {
            Some((version, rest)) if version == 1 || version == 2 => Ok((version, rest)),
            _ => Err(self.fault(tokens, None)),
        }
    }

    /// The term of all the tokens.
    fn whole_term(&self, tokens: &[Token]) -> Result<RawTerm, Stop>
        ensures { ReadsWhole IsTermText term_symbols (items_of self.now.bytes.now tokens.now)
            result }
    {
        let (term, rest) = self.term(tokens, 0, None)?;
        self.expect_end(rest)?;
        Ok(term)
    }

    /// Passes the end of the tokens, which has to come next.
    #[tactic(auto, unfolding(spec_grammar::specs::Symbols::run))]
    fn expect_end(&self, tokens: &[Token]) -> Result<(), Stop>
        ensures { ReadsEnd (items_of self.now.bytes.now tokens.now) result }
    {
        match front(tokens) {
            None => Ok(()),
            Some(_) => Err(self.fault(tokens, None)),
        }
    }

    /// The fault with its place in the text.
    fn located(&self, tokens: &[Token], stop: Stop) -> SyntaxFault
        ensures { result ≡ fault_of_stop tokens.now (length self.now.bytes.now) stop }
    {
        match stop {
            Stop::Fault(left, None) => SyntaxFault::Syntax {
                at: self.place(tokens, left),
            },
            Stop::Fault(left, Some(what)) => SyntaxFault::Limit {
                at: self.place(tokens, left),
                what,
            },
            Stop::OutOfMemory => SyntaxFault::OutOfMemory,
        }
    }

    /// The place of the first of this many tokens that are left, or the end of the text.
    fn place(&self, tokens: &[Token], left: usize) -> usize
        ensures { result ≡ place_left tokens.now left (length self.now.bytes.now) }
    {
        let read = tokens.len().saturating_sub(left);
        match front(&tokens[read..]) {
            Some((token, _)) => token.at,
            None => self.bytes.len(),
        }
    }
}
