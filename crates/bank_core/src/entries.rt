//! `Entries`: heads with arguments, the heads and the arguments apart.

ghost use Rattle.std.specs.Prelude.{◌≡◌, ◌<◌, ◌-◌, ◌∷◌, ◌++◌, [], Some, OnOk, OnErr, length};
ghost use Rattle.std.specs.Prelude.{take, slice_get};
ghost use Rattle.bank_core.specs.Entries.{entry};

use std::alloc::Global;
use std::marker::Model;
use term_core::OutOfMemory;

/// A head, and where its arguments are.
#[derive(Clone, Copy)]
struct Span<H> {
    head: H,
    count: u32,
    start: u32,
}

/// Entries in their order, each a head and its arguments. Contracts see their list.
#[derive(Drop)]
pub struct Entries<H, A> {
    spans: Vec<Span<H>>,
    args: Vec<A>,
}

impl<H, A> Model for Entries<H, A> {
    ghost use Rattle.std.specs.Prelude.{List, ◌+◌, ◌≤◌, map, take, drop, length};
    ghost use Rattle.std.specs.List.{AllByRecursion};
    ghost use Rattle.bank_core.specs.Entries.{Entry, entry};

    ghost Value = { List (Entry H A) };

    ghost view = { λ a. map (λ s. entry s.head (take s.count (drop s.start a.args.items)))
        a.spans.items };

    ghost invariant = { λ a. AllByRecursion
        (λ s. s.start + s.count ≤ length a.args.items) a.spans.items };
}

impl<H: Copy, A: Copy> Entries<H, A> {
    pub fn new(alloc: Global) -> Entries<H, A>
        ensures { result ≡ [] }
    {
        Entries {
            spans: Vec::new(alloc),
            args: Vec::new(alloc),
        }
    }

    #[inline(always)]
    pub fn len(&self) -> usize
        ensures { result ≡ length self.now }
    {
        self.spans.len()
    }

    /// The head and the arguments of an entry.
    #[inline(always)]
    pub fn at(&self, place: u32) -> (H, &[A])
        requires { place < length self.now }
        ensures { slice_get self.now place ≡ Some (entry result.0 result.1.now) }
    {
        let span = self.spans[place as usize];
        let start = span.start as usize;
        let end = start + span.count as usize;
        (span.head, &self.args[start..end])
    }

    /// Adds an entry after the others.
    pub fn push(&mut self, head: H, args: &[A]) -> Result<(), OutOfMemory>
        ensures added { OnOk result (self.new ≡ self.old ++ entry head args.now ∷ []) }
        ensures kept { OnErr result (self.new ≡ self.old) }
    {
        let start = self.args.len();
        let count = args.len();
        if start >= 1 << 32 || count >= 1 << 32 {
            return Err(OutOfMemory);
        }
        self.args.extend_from_slice(args)?;
        self.spans.push(Span {
            head,
            count: count as u32,
            start: start as u32,
        })?;
        Ok(())
    }

    /// Takes the last entry away.
    pub fn pop(&mut self)
        ensures { self.new ≡ take (length self.old - 1) self.old }
    {
        let _last = self.spans.pop();
    }
}
