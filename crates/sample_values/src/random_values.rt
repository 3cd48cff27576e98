//! Random values of a sort.

ghost use Rattle.std.specs.Prelude.{◌<◌, IfSome, length};

use crate::depths::{deepest, depth_of};
use crate::samples::Samples;
use crate::values::Value;
use spec_core::{Signature, SymInfo};
use std::alloc::Global;
use term_core::{OutOfMemory, SortId, SymId};

/// A constructor with an argument of its own sort counts as often as this, where there is room for
/// more than one symbol. So values don't end early.
const RECURSIVE_WEIGHT: u32 = 3;

/// No value that is made is deeper, whatever room is asked for.
const MOST_DEPTH: u32 = 1000;

impl<'a> Samples<'a> {
    /// A random value of the sort. Its depth is at most the room, unless each value of the sort is
    /// deeper. It is the least value of the sort if it would have more than 400 symbols.
    pub fn random(&mut self, alloc: Global, sort: SortId, room: u32) -> Result<Value, OutOfMemory> {
        let sig = &self.spec().sig;
        let depth = self.depth(sort).max(room).min(MOST_DEPTH);
        self.random_within(alloc, sig, sort, room, depth)
    }

    /// The same, of at most this depth.
    #[cycle(random)]
    fn random_within(
        &mut self,
        alloc: Global,
        sig: &Signature,
        sort: SortId,
        room: u32,
        depth: u32,
    ) -> Result<Value, OutOfMemory> {
        if depth == 0 {
            return Ok(self.least(sort));
        }
        let Some(sym) = self.random_constructor(sig, sort, room) else {
            return Ok(self.least(sort));
        };
        let args = self.random_args(alloc, sig, sig.info(sym), room, depth - 1)?;
        match self.apply(alloc, sym, &args)? {
            Some(value) => Ok(value),
            None => Ok(self.least(sort)),
        }
    }

    /// Random arguments of a constructor.
    #[cycle(random)]
    fn random_args(
        &mut self,
        alloc: Global,
        sig: &Signature,
        info: &SymInfo,
        room: u32,
        depth: u32,
    ) -> Result<Vec<Value>, OutOfMemory> {
        let mut args = Vec::new(alloc);
        for sort in &info.args {
            let left = self.room_of(info, *sort, room);
            let value = self.random_within(alloc, sig, *sort, left, depth)?;
            args.push(value)?;
        }
        Ok(args)
    }

    /// The room of an argument of the constructor. If several have its own sort, some of them are
    /// less deep.
    fn room_of(&mut self, info: &SymInfo, sort: SortId, room: u32) -> u32 {
        let left = room.saturating_sub(1);
        if sort.0 != info.result.0 {
            let some = self.number(3).saturating_add(1);
            return left.min(some).max(self.depth(sort));
        }
        if count_sort(info.args.as_slice(), sort) > 1 {
            return left.saturating_sub(self.number(2));
        }
        left
    }

    /// A constructor of the sort whose values have room, by its weight.
    fn random_constructor(&mut self, sig: &Signature, sort: SortId, room: u32) -> Option<SymId>
        ensures { IfSome result (λ sym. sym.0 < length sig.now.table) }
    {
        let total = self.total_weight(sig, sort, room);
        if total == 0 {
            return None;
        }
        let number = self.number(total);
        self.constructor_at(sig, sort, room, number)
    }

    /// The sum of the weights of the constructors.
    fn total_weight(&self, sig: &Signature, sort: SortId, room: u32) -> u32 {
        let mut total: u32 = 0;
        for number in 0..sig.constructors() {
            total = total.saturating_add(self.weight(sig.info(SymId(number)), sort, room));
        }
        total
    }

    /// The constructor that has this number if each one is counted as often as its weight says.
    fn constructor_at(&self, sig: &Signature, sort: SortId, room: u32, number: u32) -> Option<SymId>
        ensures { IfSome result (λ sym. sym.0 < length sig.now.table) }
    {
        let mut left = number;
        for constructor in 0..sig.constructors() {
            let weight = self.weight(sig.info(SymId(constructor)), sort, room);
            if left < weight {
                return Some(SymId(constructor));
            }
            left = left.saturating_sub(weight);
        }
        None
    }

    /// How often a constructor counts: 0 if it makes no value of the sort that has room.
    fn weight(&self, info: &SymInfo, sort: SortId, room: u32) -> u32 {
        if info.result.0 != sort.0 {
            return 0;
        }
        let sorts = info.args.as_slice();
        if deepest(&self.depths, sorts) >= self.depth(sort).max(room) {
            return 0;
        }
        if room > 1 && count_sort(sorts, sort) > 0 {
            RECURSIVE_WEIGHT
        } else {
            1
        }
    }

    /// The least depth of a value of the sort.
    fn depth(&self, sort: SortId) -> u32 {
        depth_of(&self.depths, sort)
    }
}

/// How many of the sorts are this one.
fn count_sort(sorts: &[SortId], sort: SortId) -> u32 {
    let mut count: u32 = 0;
    for other in sorts {
        if other.0 == sort.0 {
            count = count.saturating_add(1);
        }
    }
    count
}
