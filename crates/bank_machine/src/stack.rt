//! Slots and frames.

ghost use Rattle.std.specs.Prelude.{◌≡◌, ◌<◌, ◌≤◌, ◌+◌, ◌^◌, ◌∷◌, ◌++◌, [], OnOk, IfOk, length};
ghost use Rattle.std.specs.Prelude.{slice_index, take};
ghost use Rattle.std.specs.List.{AllByRecursion};
ghost use Rattle.bank_machine.specs.Stacks.{stack, shown, held, gathered, IsReturned};

use crate::held::Held;
use std::alloc::Global;
use term_core::OutOfMemory;

/// The places of the slots of all frames that are under way, the frame that is worked at, which is
/// on top, and those that wait for it.
#[derive(Drop)]
pub(crate) struct Stack {
    pub(crate) places: Vec<u32>,
    pub(crate) base: usize,
    pub(crate) next: usize,
    pub(crate) held: Vec<Held>,
}

impl Stack {
    /// One frame with these slots, whose code begins at `next`.
    pub(crate) fn new(alloc: Global, slots: Vec<u32>, next: usize) -> Stack
        ensures { shown result ≡ stack slots.items 0 next [] }
    {
        Stack {
            places: slots,
            base: 0,
            next,
            held: Vec::new(alloc),
        }
    }

    /// The place of a slot.
    #[inline(always)]
    pub(crate) fn slot(&self, slot: usize) -> u32
        requires { self.now.base + slot < length self.now.places.items }
        ensures { result ≡ slice_index self.now.places.items (self.now.base + slot) }
    {
        self.places[self.base + slot]
    }

    /// Puts the places of these slots into `args`.
    #[inline(always)]
    pub(crate) fn gather(&self, slots: &[usize], args: &mut Vec<u32>) -> Result<(), OutOfMemory>
        requires { AllByRecursion (λ s. self.now.base + s < length self.now.places.items)
            slots.now }
        ensures { OnOk result (args.new.items
            ≡ gathered self.now.places.items self.now.base slots.now) }
    {
        args.clear();
        for slot in slots {
            args.push(self.slot(*slot))?;
        }
        Ok(())
    }

    /// Adds a slot with this place, and goes on after the step.
    #[inline(always)]
    pub(crate) fn put(&mut self, place: u32) -> Result<(), OutOfMemory>
        requires { self.old.next + 1 < 2 ^ 64 }
        ensures { OnOk result (shown self.new
            ≡ stack (self.old.places.items ++ place ∷ []) self.old.base (self.old.next + 1)
            self.old.held.items) }
    {
        self.places.push(place)?;
        self.next += 1;
        Ok(())
    }

    /// The frame waits after the step with this much of the budget left, and one with these slots
    /// is on top.
    #[inline(always)]
    pub(crate) fn call(&mut self, args: &[u32], left: u32) -> Result<(), OutOfMemory>
        requires { self.old.next + 1 < 2 ^ 64 }
        ensures { OnOk result (shown self.new
            ≡ stack (self.old.places.items ++ args.now) (length self.old.places.items) self.old.next
            (self.old.held.items ++ held self.old.base (self.old.next + 1) left ∷ [])) }
    {
        self.held.push(Held {
            base: self.base,
            next: self.next + 1,
            left,
        })?;
        self.base = self.places.len();
        self.places.extend_from_slice(args)?;
        Ok(())
    }

    /// The slots of the frame are these from here on.
    #[inline(always)]
    pub(crate) fn call_last(&mut self, args: &[u32]) -> Result<(), OutOfMemory>
        ensures { OnOk result (shown self.new
            ≡ stack (take self.old.base self.old.places.items ++ args.now) self.old.base
            self.old.next self.old.held.items) }
    {
        self.places.truncate(self.base);
        self.places.extend_from_slice(args)?;
        Ok(())
    }

    /// The frame's value goes to the one that waits for it, and that one goes on. What was left of
    /// the budget when it began to wait, if one waits.
    #[inline(always)]
    pub(crate) fn give(&mut self, place: u32) -> Result<Option<u32>, OutOfMemory>
        ensures { IfOk result (IsReturned (shown self.old) (shown self.new) place) }
    {
        match self.held.pop() {
            None => Ok(None),
            Some(back) => {
                self.places.truncate(self.base);
                self.places.push(place)?;
                self.base = back.base;
                self.next = back.next;
                Ok(Some(back.left))
            }
        }
    }

    /// The frame goes on at this place with its first slots alone.
    #[inline(always)]
    pub(crate) fn cut(&mut self, width: usize, next: usize)
        requires { self.old.base + width ≤ length self.old.places.items }
        ensures { shown self.new ≡ stack (take (self.old.base + width) self.old.places.items)
            self.old.base next self.old.held.items }
    {
        self.places.truncate(self.base + width);
        self.next = next;
    }
}
