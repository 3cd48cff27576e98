//! A table of calls whose values are known.

ghost use Rattle.std.specs.Prelude.{◌≡◌, ◌↔◌, List, None, IfOk, OnOk, OnErr, IfSome, IsTrue};
ghost use Rattle.spec_core.specs.declared.records.Spec.{Spec};
ghost use Rattle.value_bank.specs.Cells.{Cell};
ghost use Rattle.bank_machine.specs.KeptCalls.{Says, SaysNoMore, SaysAlso, IsKept, HaveNoValues};
ghost use Rattle.bank_machine.specs.KeptCalls.{AreRight};

use std::alloc::Global;
use term_core::OutOfMemory;

/// The odd number next to 2^64 divided by the golden ratio (Knuth, 1973).
const FACTOR: u64 = 0x9e37_79b9_7f4a_7c15;

/// A table has room for 2^10 calls. With the places of their arguments they take some 80 KB.
const ROOM_BITS: u32 = 10;

/// A table begins with the first call that costs as many rule uses: for less work it doesn't pay.
const FIRST_COST: u32 = 1 << 10;

/// A cheaper call is computed again.
const LEAST_COST: u32 = 4;

/// The place of a call's value, and how many rule uses it costs.
#[derive(Clone, Copy)]
pub(crate) struct Known {
    pub(crate) place: u32,
    pub(crate) cost: u32,
}

/// A call of a function whose arguments have these places, and what is known of it.
#[derive(Drop)]
pub(crate) struct KeptCall {
    sym: u32,
    args: Vec<u32>,
    known: Option<Known>,
}

impl KeptCall {
    /// Another call takes the place of this one. If there is no room for its arguments, nothing is
    /// known of the call in this place.
    fn replace(&mut self, sym: u32, args: &[u32], known: Known) -> Result<(), OutOfMemory>
        ensures kept { OnOk result (IsKept self.new sym args.now known) }
        ensures cleared { OnErr result (self.new.known ≡ None) }
    {
        self.known = None;
        self.sym = sym;
        self.args.clear();
        self.args.extend_from_slice(args)?;
        self.known = Some(known);
        Ok(())
    }
}

/// A table of calls whose values are known, over the bank in which their arguments and values have
/// their places. It has a fixed size, and each call has one place in it, which holds the last call
/// that was kept there: what isn't found is computed. It takes no memory before a call is kept.
#[derive(Drop)]
pub struct KeptCalls {
    alloc: Global,
    calls: Vec<KeptCall>,
}

impl KeptCalls {
    /// A table without calls.
    pub fn new(alloc: Global) -> KeptCalls
        ensures { (spec : Spec) (cells : List Cell) → AreRight spec cells result }
    {
        KeptCalls {
            alloc,
            calls: Vec::new(alloc),
        }
    }

    /// What is known of the call of a function with arguments at these places.
    #[inline(always)]
    pub(crate) fn find(&self, sym: u32, args: &[u32]) -> Option<Known>
        ensures { IfSome result (Says self.now sym args.now) }
    {
        if self.calls.is_empty() {
            return None;
        }
        let place = place_of(sym, args);
        match self.calls.as_slice().get(place) {
            Some(call) => {
                if call.sym == sym && same(&call.args, args) {
                    call.known
                } else {
                    None
                }
            }
            None => None,
        }
    }

    /// Whether a call of this cost is worth its place.
    #[inline(always)]
    pub(crate) fn wants(&self, cost: u32) -> bool {
        if self.calls.is_empty() {
            cost >= FIRST_COST
        } else {
            cost >= LEAST_COST
        }
    }

    /// Keeps what is known of a call, in place of another one. After want of memory too, the table
    /// says nothing else than before and what is known of this call.
    pub(crate) fn keep(&mut self, sym: u32, args: &[u32], known: Known) -> Result<(), OutOfMemory>
        ensures { SaysAlso self.old self.new sym args.now known }
    {
        self.begin()?;
        let place = place_of(sym, args);
        if place < self.calls.len() {
            let call = &mut self.calls[place];
            call.replace(sym, args, known)?;
        }
        Ok(())
    }

    /// Makes room, unless there is some.
    fn begin(&mut self) -> Result<(), OutOfMemory>
        ensures { SaysNoMore self.old self.new }
    {
        if self.calls.is_empty() {
            self.calls = no_calls(self.alloc)?;
        }
        Ok(())
    }
}

/// A table's places, without calls.
fn no_calls(alloc: Global) -> Result<Vec<KeptCall>, OutOfMemory>
    ensures { IfOk result (λ made. HaveNoValues made.items) }
{
    let mut made = Vec::with_capacity(alloc, 1 << ROOM_BITS)?;
    for _ in 0..1 << ROOM_BITS {
        made.push(KeptCall {
            sym: 0,
            args: Vec::new(alloc),
            known: None,
        })?;
    }
    Ok(made)
}

/// The place that a call has in a table: the upper bits of a hash, which depend on all words.
#[inline(always)]
fn place_of(sym: u32, args: &[u32]) -> usize {
    let mut hash = (sym as u64).wrapping_mul(FACTOR);
    for arg in args {
        hash = (hash ^ *arg as u64).wrapping_mul(FACTOR);
    }
    (hash >> (64 - ROOM_BITS)) as usize
}

/// Whether both lists are the same.
#[inline(always)]
fn same(xs: &[u32], ys: &[u32]) -> bool
    ensures { IsTrue result ↔ (xs.now ≡ ys.now) }
{
    xs == ys
}
