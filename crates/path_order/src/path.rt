//! `Lpo`: the lexicographic path ordering with levels and statuses, its tests and its ranks.

ghost use Rattle.std.specs.Prelude.{◌≡◌, ◌≤◌, ◌↔◌, List, IsTrue, if◌then◌else◌, length, map};
ghost use Rattle.std.specs.Prelude.{option_map};
ghost use Rattle.term_core.specs.References.{terms_of};
ghost use Rattle.std.specs.Option.{IfSome};
ghost use Rattle.term_core.specs.Tree.{Tree, instance, tree_size, trees_of};
ghost use Rattle.path_order.specs.Above.{Above, AboveAll, SomeReaches};
ghost use Rattle.term_order.specs.Operands.{read, meaning};
ghost use Rattle.path_order.specs.Operands.{meanings};
ghost use Rattle.path_order.specs.Standing.{Stands, HaveOneLevel};
ghost use Rattle.path_order.specs.Arranged.{arranged};
ghost use Rattle.term_core.specs.Precedence.{Precedence, IsPrecedence, by_number, level, status};
ghost use Rattle.term_core.specs.Precedence.{is_status};

use crate::operands::Operands;
use std::marker::Model;
use term_core::{Seq, SymId, Term, TermNode, occurs};
use term_order::{Operand, TermOrder};

/// The lexicographic path ordering. A symbol of greater level has the greater precedence, and each
/// symbol's status says in which order its arguments are compared.
#[derive(Drop)]
pub struct Lpo {
    lists: Option<Lists>,
}

/// The levels of the first symbols, and the numbers of their arguments, from 1, in the order in
/// which they are compared.
#[derive(Drop)]
struct Lists {
    levels: Seq<u32>,
    statuses: Seq<Seq<u8>>,
}

impl Model for Lpo {
    ghost use Rattle.term_core.specs.Precedence.{Precedence, AreStatuses};
    ghost use Rattle.path_order.specs.Given.{of_lists};

    ghost Value = { Precedence };

    ghost view = { λ a. of_lists a.lists };

    ghost invariant = { λ a. AreStatuses (of_lists a.lists).statuses };
}

impl Lpo {
    /// Each symbol's level is its number, and arguments are compared as written.
    pub fn by_number() -> Lpo
        ensures { result ≡ by_number }
    {
        Lpo { lists: None }
    }

    /// The first symbols have these levels and statuses. Each other symbol has its number as level,
    /// and its arguments are compared as written.
    pub fn with(levels: Seq<u32>, statuses: Seq<Seq<u8>>) -> Lpo
        requires { IsPrecedence (record { levels = levels; statuses = statuses }) }
        ensures { result ≡ record { levels = levels; statuses = statuses } }
    {
        Lpo {
            lists: Some(Lists { levels, statuses }),
        }
    }

    fn level(&self, symbol: SymId) -> u32
        ensures { result ≡ level self.now symbol.0 }
    {
        match &self.lists {
            Some(lists) => match lists.levels.as_slice().get(symbol.0 as usize) {
                Some(level) => *level,
                None => symbol.0,
            },
            None => symbol.0,
        }
    }

    fn status(&self, symbol: SymId) -> Option<&[u8]>
        ensures is { option_map (λ ps. ps.now) result ≡ status self.now symbol.0 }
        ensures in_order { IfSome result (λ ps. IsTrue (is_status ps.now)) }
    {
        match &self.lists {
            Some(lists) => match lists.statuses.as_slice().get(symbol.0 as usize) {
                Some(status) => Some(status.as_slice()),
                None => None,
            },
            None => None,
        }
    }

    /// The arguments of a symbol in the order of its status, read as the operand is: as terms or as
    /// patterns.
    fn arranged<'a>(&'a self, symbol: SymId, operand: Operand<'a>, args: &'a [Term]) -> Operands<'a>
        ensures ordered { (values : List Tree) →
            trees_of (meanings values result) ≡
            arranged self.now symbol.0
            (trees_of (map (read values operand.entry.is_pattern) args.now)) }
        ensures as_many { (values : List Tree) →
            length (meanings values result) ≡ length args.now }
    {
        match self.status(symbol) {
            Some(status) if status.len() == args.len() => Operands::in_order(operand, args, status),
            _ => Operands::with(operand, args),
        }
    }
}

impl TermOrder for Lpo {
    ghost use Rattle.path_order.specs.PathLaws.{path_order_laws};
    ghost use Rattle.path_order.specs.Rank.{IsRank};
    ghost use Rattle.path_order.specs.RankLaws.{path_order_ranks};

    ghost above = { λ o. Above o };

    ghost rank = { λ o. IsRank o };

    /// Visits each pair of a place of `t` and a place of `s` once at most, and takes no memory.
    fn greater(&self, t: &Term, s: &Term) -> bool
        ensures exact { IsTrue result ↔ Above self.now t.now s.now }
        ensures sound { IsTrue result → Above self.now t.now s.now }
        ensures complete { tree_size t.now ≤ 4294967295 → tree_size s.now ≤ 4294967295 →
            Above self.now t.now s.now → IsTrue result }
    {
        let first = Operand {
            term: t,
            is_pattern: false,
        };
        let second = Operand {
            term: s,
            is_pattern: false,
        };
        compare(self, &[], first, second) == Standing::Greater
    }

    /// Visits each pair of a place of one instance and a place of the other once at most, and takes
    /// no memory. What the patterns tell by themselves is answered without a look at the list.
    fn greater_under(&self, list: &[&Term], t: &Term, s: &Term) -> bool
        ensures exact { let by = instance (terms_of list.now) in
            IsTrue result ↔ Above self.now (by t.now) (by s.now) }
        ensures sound { let by = instance (terms_of list.now) in
            IsTrue result → Above self.now (by t.now) (by s.now) }
        ensures complete { let by = instance (terms_of list.now) in
            tree_size (by t.now) ≤ 4294967295 → tree_size (by s.now) ≤ 4294967295 →
            Above self.now (by t.now) (by s.now) → IsTrue result }
    {
        let first = Operand {
            term: t,
            is_pattern: true,
        };
        let second = Operand {
            term: s,
            is_pattern: true,
        };
        compare(self, list, first, second) == Standing::Greater
    }

    ghost laws = { path_order_laws };

    ghost ranks = { path_order_ranks };
}

/// How one term stands to another.
#[derive(Clone, Copy, Debug, PartialEq, Eq)]
enum Standing {
    Same,
    Greater,
    Neither,
}

impl Standing {
    fn same_or_neither(is_same: bool) -> Standing
        ensures { result ≡ if is_same then Standing.Same else Standing.Neither }
    {
        if is_same {
            Standing::Same
        } else {
            Standing::Neither
        }
    }

    fn greater_or_neither(is_greater: bool) -> Standing
        ensures { result ≡ if is_greater then Standing.Greater else Standing.Neither }
    {
        if is_greater {
            Standing::Greater
        } else {
            Standing::Neither
        }
    }
}

/// An application that is compared, with its arguments in the order of its symbol's status.
#[derive(Clone, Copy)]
struct Application<'a> {
    whole: Operand<'a>,
    args: Operands<'a>,
}

/// How `t` stands to `s`, if both are patterns and one of them is a variable of the other: an
/// instance of a part is a part of the instance. That holds in every path ordering.
fn told_by_patterns(t: Operand, s: Operand) -> Option<Standing>
    ensures { (o : Precedence) (values : List Tree) →
        IfSome result (Stands o (meaning values t.entry) (meaning values s.entry)) }
{
    if !t.is_pattern || !s.is_pattern {
        return None;
    }
    let (term, other) = (t.term, s.term);
    match (&term.node, &other.node) {
        (TermNode::Var(x), TermNode::Var(y)) if x == y => Some(Standing::Same),
        (TermNode::Var(x), TermNode::App(_, _)) if occurs(x.0 as usize, other) => Some(
            Standing::Neither,
        ),
        (TermNode::App(_, _), TermNode::Var(y)) if occurs(y.0 as usize, term) => Some(
            Standing::Greater,
        ),
        _ => None,
    }
}

/// How `t` stands to `s`. The heads tell which of the three cases can hold.
#[cycle(compare)]
fn compare<'a>(order: &'a Lpo, list: &'a [&'a Term], t: Operand<'a>, s: Operand<'a>) -> Standing
    ensures { let values = terms_of list.now in
        Stands order.now (meaning values t.entry) (meaning values s.entry) result }
{
    if let Some(standing) = told_by_patterns(t, s) {
        return standing;
    }
    let t = t.resolved(list);
    let s = s.resolved(list);
    let (term, other) = (t.term, s.term);
    match (&term.node, &other.node) {
        (TermNode::Var(x), TermNode::Var(y)) => Standing::same_or_neither(x == y),
        (TermNode::Var(_), TermNode::App(_, _)) => Standing::Neither,
        (TermNode::App(_, ts), TermNode::Var(_)) => {
            let ts = Operands::with(t, ts.as_slice());
            Standing::greater_or_neither(some_reaches(order, list, ts, s))
        }
        (TermNode::App(f, ts), TermNode::App(g, ss)) => {
            let (ts, ss) = (ts.as_slice(), ss.as_slice());
            let (level, other_level) = (order.level(*f), order.level(*g));
            if other_level < level {
                Standing::greater_or_neither(above_all(order, list, t, Operands::with(s, ss)))
            } else if other_level == level && ts.len() == ss.len() {
                let first = order.arranged(*f, t, ts);
                let second = order.arranged(*g, s, ss);
                let t = Application {
                    whole: t,
                    args: first,
                };
                let s = Application {
                    whole: s,
                    args: second,
                };
                compare_arguments(order, list, t, s, f.0 == g.0)
            } else {
                Standing::greater_or_neither(some_reaches(order, list, Operands::with(t, ts), s))
            }
        }
    }
}

/// How `t` stands to `s`, by the first arguments that differ and by those after them. The ones
/// before are the same, so they reach nothing in `s`.
#[cycle(compare)]
fn compare_arguments<'a>(
    order: &'a Lpo,
    list: &'a [&'a Term],
    t: Application<'a>,
    s: Application<'a>,
    one_head: bool,
) -> Standing
    requires { let values = terms_of list.now in
        HaveOneLevel order.now (meaning values t.whole) (meanings values t.args)
        (meaning values s.whole) (meanings values s.args) one_head }
    ensures { let values = terms_of list.now in
        Stands order.now (meaning values t.entry.whole) (meaning values s.entry.whole) result }
{
    for i in 0..t.args.len() {
        match compare(order, list, t.args.at(i), s.args.at(i)) {
            Standing::Same => {}
            Standing::Greater => {
                let is_above = above_all(order, list, t.whole, s.args.after(i));
                return Standing::greater_or_neither(is_above);
            }
            Standing::Neither => {
                let reaches = some_reaches(order, list, t.args.after(i), s.whole);
                return Standing::greater_or_neither(reaches);
            }
        }
    }
    if one_head {
        Standing::Same
    } else {
        Standing::Neither
    }
}

/// Whether `t` is above each of the terms.
#[cycle(compare)]
fn above_all<'a>(order: &'a Lpo, list: &'a [&'a Term], t: Operand<'a>, ss: Operands<'a>) -> bool
    ensures { let values = terms_of list.now in
        IsTrue result ↔
        AboveAll order.now (meaning values t.entry) (trees_of (meanings values ss.entry)) }
{
    if ss.len() == 0 {
        return true;
    }
    compare(order, list, t, ss.at(0)) == Standing::Greater && above_all(order, list, t, ss.after(0))
}

/// Whether some of the terms is `s`, or is above it.
#[cycle(compare)]
fn some_reaches<'a>(order: &'a Lpo, list: &'a [&'a Term], ts: Operands<'a>, s: Operand<'a>) -> bool
    ensures { let values = terms_of list.now in
        IsTrue result ↔
        SomeReaches order.now (trees_of (meanings values ts.entry)) (meaning values s.entry) }
{
    if ts.len() == 0 {
        return false;
    }
    compare(order, list, ts.at(0), s) != Standing::Neither
        || some_reaches(order, list, ts.after(0), s)
}
