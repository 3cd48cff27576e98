//! `Table`: entries with their links.

ghost use Rattle.std.specs.Prelude.{◌≡◌, ◌<◌, ◌∷◌, ◌++◌, [], Some, IsTrue, ◌↔◌, IfOk, OnOk};
ghost use Rattle.std.specs.Prelude.{OnErr, MatchOption, length, slice_get};
ghost use Rattle.bank_core.specs.Entries.{entry, IsNowhere, IsAdded, AreShared};
ghost use Rattle.bank_core.specs.Hashing.{hash_by};

use crate::entries::Entries;
use crate::links::Links;
use crate::parts::Part;
use std::alloc::Global;
use std::marker::Model;
use term_core::OutOfMemory;

/// Entries, each of which is there once and is found by its hash. Contracts see their list.
#[derive(Drop)]
pub struct Table<H: Part, A: Part> {
    entries: Entries<H, A>,
    links: Links,
}

impl<H: Part, A: Part> Model for Table<H, A> {
    ghost use Rattle.std.specs.Prelude.{List, ◌≡◌};
    ghost use Rattle.bank_core.specs.Entries.{Entry, AreShared, hashes_by};
    ghost use Rattle.bank_core.specs.Hashing.{hash_by};

    ghost Value = { List (Entry H A) };

    ghost view = { λ a. a.entries };

    ghost invariant = { λ a. AreShared a.entries
        × (a.links ≡ hashes_by (hash_by H.stirred A.stirred) a.entries) };
}

impl<H: Part, A: Part> Table<H, A> {
    pub fn new(alloc: Global) -> Result<Table<H, A>, OutOfMemory>
        ensures { IfOk result (λ made. made ≡ []) }
    {
        let links = Links::new(alloc)?;
        Ok(Table {
            entries: Entries::new(alloc),
            links,
        })
    }

    /// How many entries there are.
    #[inline(always)]
    pub fn len(&self) -> usize
        ensures { result ≡ length self.now }
    {
        self.entries.len()
    }

    /// Each entry is there once.
    pub fn shared_law(&self)
        ensures { AreShared self.now }
    {
        let _entries = &self.entries;
    }

    /// The head and the arguments of an entry.
    #[inline(always)]
    pub fn at(&self, place: u32) -> (H, &[A])
        requires { place < length self.now }
        ensures { slice_get self.now place ≡ Some (entry result.0 result.1.now) }
    {
        self.entries.at(place)
    }

    /// The place of an entry, if it has one.
    #[inline(always)]
    pub fn find(&self, head: H, args: &[A], hash: u32) -> Option<u32>
        requires { hash ≡ hash_by H.stirred A.stirred head args.now }
        ensures { MatchOption result (IsNowhere self.now (entry head args.now))
            (λ p. slice_get self.now p ≡ Some (entry head args.now)) }
    {
        let mut at = self.links.last(hash);
        while at != 0 {
            let (other, others) = self.entries.at(at - 1);
            if other.same(head) && same_parts(others, args) {
                return Some(at - 1);
            }
            at = self.links.before(hash, at);
        }
        None
    }

    /// The place of the entry with this head and these arguments. It is added if none is the
    /// same.
    #[inline(always)]
    pub fn add(&mut self, head: H, args: &[A]) -> Result<u32, OutOfMemory>
        ensures found { IfOk result (λ p. slice_get self.new p ≡ Some (entry head args.now)) }
        ensures added { IsAdded self.old self.new (entry head args.now) }
        ensures kept { OnErr result (self.new ≡ self.old) }
    {
        let hash = hash_entry(head, args);
        match self.find(head, args, hash) {
            Some(place) => Ok(place),
            None => self.put(head, args, hash),
        }
    }

    /// Adds an entry that isn't there.
    #[inline(never)]
    pub fn put(&mut self, head: H, args: &[A], hash: u32) -> Result<u32, OutOfMemory>
        requires hash { hash ≡ hash_by H.stirred A.stirred head args.now }
        requires nowhere { IsNowhere self.old (entry head args.now) }
        ensures last { IfOk result (λ p. p ≡ length self.old) }
        ensures found { IfOk result (λ p. slice_get self.new p ≡ Some (entry head args.now)) }
        ensures added { OnOk result (self.new ≡ self.old ++ entry head args.now ∷ []) }
        ensures kept { OnErr result (self.new ≡ self.old) }
    {
        let place = self.entries.len();
        // A place has 32 bits, and so has the number after it by which a link names it.
        if place >= 0xffff_ffff {
            return Err(OutOfMemory);
        }
        self.entries.push(head, args)?;
        match self.links.add(hash) {
            Ok(()) => Ok(place as u32),
            Err(error) => {
                self.entries.pop();
                Err(error)
            }
        }
    }
}

/// The hash of an entry.
#[inline(always)]
pub fn hash_entry<H: Part, A: Part>(head: H, args: &[A]) -> u32
    ensures { result ≡ hash_by H.stirred A.stirred head args.now }
{
    let mut hash = head.stir(0);
    for arg in args {
        hash = arg.stir(hash);
    }
    (hash >> 32) as u32
}

/// Whether both lists are the same.
fn same_parts<A: Part>(xs: &[A], ys: &[A]) -> bool
    ensures { IsTrue result ↔ (xs.now ≡ ys.now) }
{
    match (xs, ys) {
        ([], []) => true,
        ([x, xs @ ..], [y, ys @ ..]) => x.same(*y) && same_parts(xs, ys),
        _ => false,
    }
}
