//! Functions and rules.

ghost use Rattle.std.specs.Prelude.{◌≡◌, ◌≤◌, ◌<◌, ◌+◌, ◌∷◌, [], None, OnOk};
ghost use Rattle.spec_grammar.specs.Grammar.{sign, name_text, term_text, sides_text, con_text};
ghost use Rattle.spec_grammar.specs.Grammar.{names_text, guard_key, guards_text, funs_text};
ghost use Rattle.spec_grammar.specs.Grammar.{rules_text};
ghost use Rattle.spec_grammar.specs.Items.{Sign, items_of};
ghost use Rattle.spec_grammar.specs.Limits.{arity_mark, fun_mark, guard_mark, rule_mark};
ghost use Rattle.spec_grammar.specs.Symbols.{name as name_symbol, names as names_symbol};
ghost use Rattle.spec_grammar.specs.Symbols.{more_names as more_names_symbol, key as key_symbol};
ghost use Rattle.spec_grammar.specs.Symbols.{funs as funs_symbol, rules as rules_symbol};
ghost use Rattle.spec_grammar.specs.Symbols.{guards as guards_symbol, sides_then};
ghost use Rattle.spec_grammar.specs.declared.keys.Key.TheVariants.{Comma, Colon, Fun, Rule};
ghost use Rattle.spec_syntax.specs.Reading.{Reads, ReadsNext};

use crate::stop::Stop;
use crate::words::{Source, over};
use spec_grammar::{
    Key, LimitKind, MAX_ARGUMENTS, MAX_GUARDS, RawFun, RawGuard, RawName, RawNames, RawRule,
    max_functions, max_rules,
};
use spec_text::Token;
use term_core::Seq;

impl<'a> Source<'a> {
    /// The names in parentheses, if there are any.
    #[tactic(auto, unfolding(spec_grammar::specs::Symbols::run))]
    fn names<'t>(&self, tokens: &'t [Token]) -> Result<(Seq<RawName>, &'t [Token]), Stop>
        ensures { Reads (λ x. names_text x.0) (λ x. items_of self.now.bytes.now x.1.now)
            (names_symbol ∷ []) (items_of self.now.bytes.now tokens.now) result }
    {
        let mut made = Seq::new(self.alloc);
        let Some(opened) = self.after_key(tokens, Key::LeftPar) else {
            return Ok((made, tokens));
        };
        let (first, mut rest) = self.name(opened, over(0, MAX_ARGUMENTS, LimitKind::Arity))?;
        made.push(first)?;
        while let Some((name, after)) = self.next_name(rest, made.len())? {
            made.push(name)?;
            rest = after;
        }
        let closed = self.expect(rest, Key::RightPar)?;
        Ok((made, closed))
    }

    /// The name after a comma, with `n` names before it; None if no comma comes next.
    #[tactic(auto, unfolding(spec_grammar::specs::Symbols::run))]
    fn next_name<'t>(
        &self,
        tokens: &'t [Token],
        n: usize,
    ) -> Result<Option<(RawName, &'t [Token])>, Stop>
        ensures { ReadsNext (λ x v. sign Comma ∷ name_text (arity_mark n) x.0 v)
            (λ x. items_of self.now.bytes.now x.1.now) (more_names_symbol n)
            (more_names_symbol (n + 1)) (items_of self.now.bytes.now tokens.now) result }
    {
        let Some(next) = self.after_key(tokens, Key::Comma) else {
            return Ok(None);
        };
        let (name, rest) = self.name(next, over(n, MAX_ARGUMENTS, LimitKind::Arity))?;
        Ok(Some((name, rest)))
    }

    /// A name, in a place that may pass a limit, and the names in parentheses after it.
    pub(crate) fn head<'t>(
        &self,
        tokens: &'t [Token],
        over: Option<LimitKind>,
    ) -> Result<(RawNames, &'t [Token]), Stop>
        ensures reads { Reads (λ x. con_text over x.0) (λ x. items_of self.now.bytes.now x.1.now)
            (name_symbol over ∷ names_symbol ∷ []) (items_of self.now.bytes.now tokens.now) result }
        ensures within { OnOk result (over ≡ None) }
    {
        let (RawName { name, at }, rest) = self.name(tokens, over)?;
        let (args, rest) = self.names(rest)?;
        Ok((RawNames { name, at, args }, rest))
    }

    /// The functions of a format.
    #[tactic(auto, unfolding(spec_grammar::specs::Symbols::run))]
    pub(crate) fn functions<'t>(
        &self,
        tokens: &'t [Token],
        version: u32,
    ) -> Result<(Seq<RawFun>, &'t [Token]), Stop>
        ensures { Reads (λ x. funs_text version 0 x.0) (λ x. items_of self.now.bytes.now x.1.now)
            (funs_symbol version 0 ∷ []) (items_of self.now.bytes.now tokens.now) result }
    {
        let mut made = Seq::new(self.alloc);
        let mut rest = tokens;
        while let Some((function, after)) = self.next_function(rest, version, made.len())? {
            made.push(function)?;
            rest = after;
        }
        Ok((made, rest))
    }

    /// The next function, with `n` functions before it; None if none comes next.
    #[tactic(auto, unfolding(spec_grammar::specs::Symbols::run))]
    fn next_function<'t>(
        &self,
        tokens: &'t [Token],
        version: u32,
        n: usize,
    ) -> Result<Option<(RawFun, &'t [Token])>, Stop>
        ensures { ReadsNext
            (λ x v. (Sign Fun, fun_mark version n)
            ∷ con_text None x.0.head (sign Colon ∷ name_text None x.0.result v))
            (λ x. items_of self.now.bytes.now x.1.now)
            (funs_symbol version n) (funs_symbol version (n + 1))
            (items_of self.now.bytes.now tokens.now) result }
    {
        let Some(next) = self.after_key(tokens, Key::Fun) else {
            return Ok(None);
        };
        self.within(
            tokens,
            over(n, max_functions(version), LimitKind::Functions),
        )?;
        let (function, rest) = self.function(next)?;
        Ok(Some((function, rest)))
    }

    /// A function after its first word.
    fn function<'t>(&self, tokens: &'t [Token]) -> Result<(RawFun, &'t [Token]), Stop>
        ensures { Reads (λ x v. con_text None x.0.head (sign Colon ∷ name_text None x.0.result v))
            (λ x. items_of self.now.bytes.now x.1.now)
            (name_symbol None ∷ names_symbol ∷ key_symbol Colon ∷ name_symbol None ∷ [])
            (items_of self.now.bytes.now tokens.now) result }
    {
        let (head, rest) = self.head(tokens, None)?;
        let rest = self.expect(rest, Key::Colon)?;
        let (result_sort, rest) = self.name(rest, None)?;
        Ok((
            RawFun {
                head,
                result: result_sort,
            },
            rest,
        ))
    }

    /// The rules of a format.
    #[tactic(auto, unfolding(spec_grammar::specs::Symbols::run))]
    pub(crate) fn rules<'t>(
        &self,
        tokens: &'t [Token],
        version: u32,
    ) -> Result<(Seq<RawRule>, &'t [Token]), Stop>
        ensures { Reads (λ x. rules_text version 0 x.0) (λ x. items_of self.now.bytes.now x.1.now)
            (rules_symbol version 0 ∷ []) (items_of self.now.bytes.now tokens.now) result }
    {
        let mut made = Seq::new(self.alloc);
        let mut rest = tokens;
        while let Some((rule, after)) = self.next_rule(rest, version, made.len())? {
            made.push(rule)?;
            rest = after;
        }
        Ok((made, rest))
    }

    /// The next rule, with `n` rules before it; None if none comes next.
    #[tactic(auto, unfolding(spec_grammar::specs::Symbols::run))]
    fn next_rule<'t>(
        &self,
        tokens: &'t [Token],
        version: u32,
        n: usize,
    ) -> Result<Option<(RawRule, &'t [Token])>, Stop>
        ensures { ReadsNext
            (λ x v. (Sign Rule, rule_mark version n)
            ∷ sides_text None x.0.left x.0.right (guards_text 0 x.0.guards v))
            (λ x. items_of self.now.bytes.now x.1.now) (rules_symbol version n)
            (rules_symbol version (n + 1)) (items_of self.now.bytes.now tokens.now) result }
    {
        let Some(next) = self.after_key(tokens, Key::Rule) else {
            return Ok(None);
        };
        self.within(tokens, over(n, max_rules(version), LimitKind::Rules))?;
        let (rule, rest) = self.rule(next)?;
        Ok(Some((rule, rest)))
    }

    /// A rule after its first word.
    fn rule<'t>(&self, tokens: &'t [Token]) -> Result<(RawRule, &'t [Token]), Stop>
        ensures { Reads (λ x v. sides_text None x.0.left x.0.right (guards_text 0 x.0.guards v))
            (λ x. items_of self.now.bytes.now x.1.now) (sides_then None (guards_symbol 0 ∷ []))
            (items_of self.now.bytes.now tokens.now) result }
    {
        let (sides, rest) = self.equation(tokens, None)?;
        let (guards, rest) = self.guards(rest)?;
        let rule = RawRule {
            left: sides.left,
            right: sides.right,
            guards,
        };
        Ok((rule, rest))
    }

    /// The guards of a rule.
    #[tactic(auto, unfolding(spec_grammar::specs::Symbols::run))]
    fn guards<'t>(&self, tokens: &'t [Token]) -> Result<(Seq<RawGuard>, &'t [Token]), Stop>
        ensures { Reads (λ x. guards_text 0 x.0) (λ x. items_of self.now.bytes.now x.1.now)
            (guards_symbol 0 ∷ []) (items_of self.now.bytes.now tokens.now) result }
    {
        let mut made = Seq::new(self.alloc);
        let mut rest = tokens;
        while let Some((guard, after)) = self.next_guard(rest, made.len())? {
            made.push(guard)?;
            rest = after;
        }
        Ok((made, rest))
    }

    /// The next guard, with `n` guards before it; None if none comes next.
    #[tactic(auto, unfolding(spec_grammar::specs::Symbols::run))]
    fn next_guard<'t>(
        &self,
        tokens: &'t [Token],
        n: usize,
    ) -> Result<Option<(RawGuard, &'t [Token])>, Stop>
        ensures { ReadsNext
            (λ x v. (Sign (guard_key x.0.wanted), guard_mark n) ∷ term_text 0 None x.0.test v)
            (λ x. items_of self.now.bytes.now x.1.now) (guards_symbol n) (guards_symbol (n + 1))
            (items_of self.now.bytes.now tokens.now) result }
    {
        if let Some(next) = self.after_key(tokens, Key::If) {
            self.within(tokens, over(n, MAX_GUARDS, LimitKind::Guards))?;
            let (test, rest) = self.term(next, 0, None)?;
            return Ok(Some((RawGuard { test, wanted: true }, rest)));
        }
        if let Some(next) = self.after_key(tokens, Key::Unless) {
            self.within(tokens, over(n, MAX_GUARDS, LimitKind::Guards))?;
            let (test, rest) = self.term(next, 0, None)?;
            return Ok(Some((
                RawGuard {
                    test,
                    wanted: false,
                },
                rest,
            )));
        }
        Ok(None)
    }
}
