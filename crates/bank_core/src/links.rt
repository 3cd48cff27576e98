//! `Links`: chains of entries by hashes, and their growth.

ghost use Rattle.std.specs.Prelude.{◌≡◌, ◌≤◌, ◌<◌, ◌-◌, ◌^◌, ℕ, suc, [], ◌∷◌, ◌++◌, IfOk, OnOk};
ghost use Rattle.std.specs.Prelude.{OnErr, length};
ghost use Rattle.bank_core.specs.Links.{HasHash, IsLast, IsIn, AreLinked, place_of};
ghost use Rattle.bank_core.specs.Chains.{hashes_of, befores_of};

use std::alloc::Global;
use std::marker::Model;
use term_core::OutOfMemory;

/// The hash of an entry, and the number after that of the last entry before it in the same bucket,
/// or 0.
#[derive(Clone, Copy)]
struct Link {
    hash: u32,
    before: u32,
}

/// Entries found by their hashes: a bucket leads to its last entry, and each entry to the one
/// before it in its bucket. Contracts see the hashes of the entries, in their order.
#[derive(Drop)]
pub struct Links {
    alloc: Global,
    first: Vec<u32>,
    links: Vec<Link>,
}

impl Model for Links {
    ghost use Rattle.std.specs.Prelude.{List, ℕ, map};
    ghost use Rattle.bank_core.specs.Links.{AreLinked};

    ghost Value = { List ℕ };

    ghost view = { λ a. map (λ l. l.hash) a.links.items };

    ghost invariant = { λ a. AreLinked a.first.items (map (λ l. l.hash) a.links.items)
        (map (λ l. l.before) a.links.items) };
}

impl Links {
    pub fn new(alloc: Global) -> Result<Links, OutOfMemory>
        ensures { IfOk result (λ made. made ≡ []) }
    {
        Links::with_buckets(alloc, 64)
    }

    fn with_buckets(alloc: Global, count: usize) -> Result<Links, OutOfMemory>
        requires { 0 < count }
        ensures { IfOk result (λ made. made ≡ []) }
    {
        let first = vec![in alloc; 0u32; count]?;
        Ok(Links {
            alloc,
            first,
            links: Vec::new(alloc),
        })
    }

    /// The number after that of the last entry with this hash, or 0.
    #[inline(always)]
    pub fn last(&self, hash: u32) -> u32
        ensures { IsLast (HasHash self.now hash) (length self.now) result }
    {
        let at = self.first[bucket(self.first.len(), hash)];
        among(&self.first, &self.links, hash, at)
    }

    /// The number after that of the last entry with this hash before the one that is below `at`.
    #[inline(always)]
    pub fn before(&self, hash: u32, at: u32) -> u32
        requires some { 0 < at }
        requires there { at ≤ length self.now }
        requires has { HasHash self.now hash (at - 1) }
        ensures { IsLast (HasHash self.now hash) (at - 1) result }
    {
        let link = self.links[at as usize - 1];
        among(&self.first, &self.links, hash, link.before)
    }

    /// Adds an entry. There are at least as many buckets as entries.
    pub fn add(&mut self, hash: u32) -> Result<(), OutOfMemory>
        requires { length self.old < 2 ^ 32 - 1 }
        ensures added { OnOk result (self.new ≡ self.old ++ hash ∷ []) }
        ensures kept { OnErr result (self.new ≡ self.old) }
    {
        if self.links.len() >= self.first.len() {
            self.widen()?;
        }
        self.insert(hash)
    }

    /// Adds an entry where its bucket begins.
    fn insert(&mut self, hash: u32) -> Result<(), OutOfMemory>
        requires { length self.old < 2 ^ 32 - 1 }
        ensures added { OnOk result (self.new ≡ self.old ++ hash ∷ []) }
        ensures kept { OnErr result (self.new ≡ self.old) }
    {
        let place = bucket(self.first.len(), hash);
        let before = self.first[place];
        let number = self.links.len() as u32;
        self.links.push(Link { hash, before })?;
        self.first[place] = number + 1;
        Ok(())
    }

    /// Puts the entries into twice as many buckets.
    #[inline(never)]
    fn widen(&mut self) -> Result<(), OutOfMemory>
        requires { length self.old < 2 ^ 32 - 1 }
        ensures { self.new ≡ self.old }
    {
        let mut wide = Links::with_buckets(self.alloc, self.first.len().saturating_mul(2))?;
        for link in &self.links {
            wide.insert(link.hash)?;
        }
        *self = wide;
        Ok(())
    }
}

/// The bucket of a hash.
#[inline(always)]
fn bucket(count: usize, hash: u32) -> usize
    requires { 0 < count }
    ensures is { result ≡ place_of count hash }
    ensures within { result < count }
{
    hash as usize & (count - 1)
}

/// The number after that of the last entry with this hash below `at`, along the chain that begins
/// there, or 0.
#[inline(always)]
fn among(first: &[u32], links: &[Link], hash: u32, at: u32) -> u32
    requires linked { AreLinked first.now (hashes_of links.now) (befores_of links.now) }
    requires within { at ≤ length links.now }
    requires chained { (k : ℕ) → at ≡ suc k
        → IsIn (length first.now) (hashes_of links.now) (place_of (length first.now) hash) k }
    ensures { IsLast (HasHash (hashes_of links.now) hash) at result }
{
    let _count = first.len();
    let mut here = at;
    while here != 0 {
        let link = links[here as usize - 1];
        if link.hash == hash {
            return here;
        }
        here = link.before;
    }
    0
}
