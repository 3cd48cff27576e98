//! Goals and their bindings.

ghost use Rattle.std.specs.Prelude.{◌≡◌, ◌+◌, ◌∷◌, [], None};
ghost use Rattle.spec_grammar.specs.Grammar.{sign, bind_text, binds_text, AreGoals};
ghost use Rattle.spec_grammar.specs.Items.{items_of};
ghost use Rattle.spec_grammar.specs.Limits.{variable_mark};
ghost use Rattle.spec_grammar.specs.Symbols.{goals as goals_symbol, binds as binds_symbol};
ghost use Rattle.spec_grammar.specs.Symbols.{more_binds as more_binds_symbol, bind_then};
ghost use Rattle.spec_grammar.specs.declared.keys.Key.TheVariants.{Comma};
ghost use Rattle.spec_syntax.specs.Reading.{Reads, ReadsAs, ReadsNext, ReadsNextAs, IsGoalText};
ghost use Rattle.spec_syntax.specs.Reading.{IsOneGoal, goal_symbols};

use crate::clauses::Clause;
use crate::stop::Stop;
use crate::words::{Source, over};
use spec_grammar::{Key, LimitKind, MAX_GOALS, MAX_VARIABLES, RawBind, RawGoal};
use spec_text::Token;
use term_core::Seq;

impl<'a> Source<'a> {
    /// The goals.
    pub(crate) fn goals<'t>(&self, tokens: &'t [Token]) -> Result<(Seq<RawGoal>, &'t [Token]), Stop>
        ensures { ReadsAs (λ x. AreGoals 0 x.0) (λ x. items_of self.now.bytes.now x.1.now)
            (goals_symbol 0 ∷ []) (items_of self.now.bytes.now tokens.now) result }
    {
        let mut made = Seq::new(self.alloc);
        let mut rest = tokens;
        while let Some((goal, after)) = self.next_goal(rest, made.len())? {
            made.push(goal)?;
            rest = after;
        }
        Ok((made, rest))
    }

    /// The next goal, with `n` goals before it; None if none comes next.
    #[tactic(auto, unfolding(spec_grammar::specs::Symbols::run))]
    fn next_goal<'t>(
        &self,
        tokens: &'t [Token],
        n: usize,
    ) -> Result<Option<(RawGoal, &'t [Token])>, Stop>
        ensures { ReadsNextAs (λ x. IsOneGoal n x.0) (λ x. items_of self.now.bytes.now x.1.now)
            (goals_symbol n) (goals_symbol (n + 1))
            (items_of self.now.bytes.now tokens.now) result }
    {
        let Some(next) = self.after_key(tokens, Key::Goal) else {
            return Ok(None);
        };
        self.within(tokens, over(n, MAX_GOALS, LimitKind::Goals))?;
        let (goal, rest) = self.goal(next)?;
        Ok(Some((goal, rest)))
    }

    /// A goal after its first word.
    fn goal<'t>(&self, tokens: &'t [Token]) -> Result<(RawGoal, &'t [Token]), Stop>
        ensures { ReadsAs (λ x. IsGoalText x.0) (λ x. items_of self.now.bytes.now x.1.now)
            (goal_symbols []) (items_of self.now.bytes.now tokens.now) result }
    {
        let (head, rest) = self.name(tokens, None)?;
        let (binds, rest) = self.binds(rest)?;
        let rest = self.expect(rest, Key::Colon)?;
        let (clause, rest) = self.clause(rest)?;
        let Clause {
            premises,
            conclusions,
        } = clause;
        let goal = RawGoal {
            head,
            binds,
            premises,
            conclusions,
        };
        Ok((goal, rest))
    }

    /// The bindings in parentheses, if there are any.
    #[tactic(auto, unfolding(spec_grammar::specs::Symbols::run))]
    fn binds<'t>(&self, tokens: &'t [Token]) -> Result<(Seq<RawBind>, &'t [Token]), Stop>
        ensures { Reads (λ x. binds_text x.0) (λ x. items_of self.now.bytes.now x.1.now)
            (binds_symbol ∷ []) (items_of self.now.bytes.now tokens.now) result }
    {
        let mut made = Seq::new(self.alloc);
        let Some(opened) = self.after_key(tokens, Key::LeftPar) else {
            return Ok((made, tokens));
        };
        let (first, mut rest) = self.bind(opened, over(0, MAX_VARIABLES, LimitKind::Variables))?;
        made.push(first)?;
        while let Some((bind, after)) = self.next_bind(rest, made.len())? {
            made.push(bind)?;
            rest = after;
        }
        let closed = self.expect(rest, Key::RightPar)?;
        Ok((made, closed))
    }

    /// The binding after a comma, with `n` bindings before it; None if no comma comes next.
    #[tactic(auto, unfolding(spec_grammar::specs::Symbols::run))]
    fn next_bind<'t>(
        &self,
        tokens: &'t [Token],
        n: usize,
    ) -> Result<Option<(RawBind, &'t [Token])>, Stop>
        ensures { ReadsNext (λ x v. sign Comma ∷ bind_text (variable_mark n) x.0 v)
            (λ x. items_of self.now.bytes.now x.1.now) (more_binds_symbol n)
            (more_binds_symbol (n + 1)) (items_of self.now.bytes.now tokens.now) result }
    {
        let Some(next) = self.after_key(tokens, Key::Comma) else {
            return Ok(None);
        };
        let (bind, rest) = self.bind(next, over(n, MAX_VARIABLES, LimitKind::Variables))?;
        Ok(Some((bind, rest)))
    }

    /// A variable and its sort, in a place that may pass a limit.
    fn bind<'t>(
        &self,
        tokens: &'t [Token],
        over: Option<LimitKind>,
    ) -> Result<(RawBind, &'t [Token]), Stop>
        ensures { Reads (λ x. bind_text over x.0) (λ x. items_of self.now.bytes.now x.1.now)
            (bind_then over []) (items_of self.now.bytes.now tokens.now) result }
    {
        let (name, rest) = self.name(tokens, over)?;
        let rest = self.expect(rest, Key::Colon)?;
        let (sort, rest) = self.name(rest, None)?;
        Ok((RawBind { name, sort }, rest))
    }
}
