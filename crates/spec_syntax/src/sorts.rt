//! The constructors of a sort.

ghost use Rattle.std.specs.Prelude.{◌≡◌, ◌≤◌, ◌<◌, ◌+◌, ◌∷◌, [], IfOk, length};
ghost use Rattle.spec_grammar.specs.Grammar.{AreSorts};
ghost use Rattle.spec_grammar.specs.Items.{items_of};
ghost use Rattle.spec_grammar.specs.Limits.{most_constructors, constructor_mark};
ghost use Rattle.spec_grammar.specs.Symbols.{sorts as sorts_symbol};
ghost use Rattle.spec_grammar.specs.declared.keys.Key.TheVariants.{Bar, Sort};
ghost use Rattle.spec_syntax.specs.Reading.{ReadsAs};
ghost use Rattle.spec_syntax.specs.ReadingSorts.{ReadsConstructor, ReadsConstructors, ReadsSort};
ghost use Rattle.spec_syntax.specs.ReadingSorts.{ReadsNextSort};

use crate::stop::Stop;
use crate::words::{Source, over};
use spec_grammar::{
    Key, LimitKind, MAX_SORT_CONSTRUCTORS, MAX_SORTS, RawNames, RawSort, max_constructors,
};
use spec_text::Token;
use term_core::Seq;

/// The limit of a format that a constructor passes with `k` before it in its sort and `total`
/// before it in all.
fn constructor_over(version: u32, k: usize, total: usize) -> Option<LimitKind>
    ensures { result ≡ constructor_mark version k total }
{
    match over(k, MAX_SORT_CONSTRUCTORS, LimitKind::Constructors) {
        Some(why) => Some(why),
        None => over(total, max_constructors(version), LimitKind::Constructors),
    }
}

impl<'a> Source<'a> {
    /// The sorts of a format.
    pub(crate) fn sorts<'t>(
        &self,
        tokens: &'t [Token],
        version: u32,
    ) -> Result<(Seq<RawSort>, &'t [Token]), Stop>
        ensures { ReadsAs (λ x. AreSorts version 0 0 x.0) (λ x. items_of self.now.bytes.now x.1.now)
            (sorts_symbol version 0 0 0 ∷ []) (items_of self.now.bytes.now tokens.now) result }
    {
        let mut made = Seq::new(self.alloc);
        let mut total = 0;
        let mut rest = tokens;
        while let Some((sort, after)) = self.next_sort(rest, version, made.len(), total)? {
            total += sort.constructors.len();
            made.push(sort)?;
            rest = after;
        }
        Ok((made, rest))
    }

    /// The next sort, with `n` sorts and `total` constructors before it; None if none comes
    /// next.
    fn next_sort<'t>(
        &self,
        tokens: &'t [Token],
        version: u32,
        n: usize,
        total: usize,
    ) -> Result<Option<(RawSort, &'t [Token])>, Stop>
        requires { total ≤ most_constructors version }
        ensures { ReadsNextSort version n total (λ x. x.0)
            (λ x. items_of self.now.bytes.now x.1.now)
            (items_of self.now.bytes.now tokens.now) result }
    {
        let Some(next) = self.after_key(tokens, Key::Sort) else {
            return Ok(None);
        };
        self.within(tokens, over(n, MAX_SORTS, LimitKind::Sorts))?;
        let (sort, rest) = self.sort(next, version, total)?;
        Ok(Some((sort, rest)))
    }

    /// A sort after its first word, with `total` constructors before it.
    fn sort<'t>(
        &self,
        tokens: &'t [Token],
        version: u32,
        total: usize,
    ) -> Result<(RawSort, &'t [Token]), Stop>
        requires { total ≤ most_constructors version }
        ensures { ReadsSort version total (λ x. x.0) (λ x. items_of self.now.bytes.now x.1.now)
            (items_of self.now.bytes.now tokens.now) result }
    {
        let (head, rest) = self.name(tokens, None)?;
        let rest = self.expect(rest, Key::Equals)?;
        let (constructors, rest) = self.constructors(rest, version, total)?;
        Ok((RawSort { head, constructors }, rest))
    }

    /// The constructors of a sort, at least one, with `total` constructors before them.
    fn constructors<'t>(
        &self,
        tokens: &'t [Token],
        version: u32,
        total: usize,
    ) -> Result<(Seq<RawNames>, &'t [Token]), Stop>
        requires { total ≤ most_constructors version }
        ensures { ReadsConstructors version total (λ x. x.0)
            (λ x. items_of self.now.bytes.now x.1.now)
            (items_of self.now.bytes.now tokens.now) result }
    {
        let mut made = Seq::new(self.alloc);
        let (first, mut rest) = self.head(tokens, constructor_over(version, 0, total))?;
        made.push(first)?;
        while let Some((constructor, after)) = self.next_constructor(
            rest,
            version,
            made.len(),
            total,
        )? {
            made.push(constructor)?;
            rest = after;
        }
        Ok((made, rest))
    }

    /// The constructor after a bar, with `k` constructors of its sort before it and `total` before
    /// these; None if no bar comes next.
    fn next_constructor<'t>(
        &self,
        tokens: &'t [Token],
        version: u32,
        k: usize,
        total: usize,
    ) -> Result<Option<(RawNames, &'t [Token])>, Stop>
        requires { k + total ≤ most_constructors version }
        ensures { ReadsConstructor version k (total + k) (λ x. x.0)
            (λ x. items_of self.now.bytes.now x.1.now) (items_of self.now.bytes.now tokens.now)
            result }
    {
        let Some(next) = self.after_key(tokens, Key::Bar) else {
            return Ok(None);
        };
        let (constructor, rest) = self.head(next, constructor_over(version, k, total + k))?;
        Ok(Some((constructor, rest)))
    }
}
