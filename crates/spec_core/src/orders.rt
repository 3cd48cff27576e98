//! The order of a specification by number.

ghost use Rattle.std.specs.Prelude.{◌≡◌, IfOk};
ghost use Rattle.std.specs.List.{range_with_len};
ghost use Rattle.spec_core.specs.Orders.{order_by_number as ordered_by_number};

use crate::records::OrderInfo;
use crate::symbols::Signature;
use std::alloc::Global;
use term_core::{OutOfMemory, Seq, SymId};

impl OrderInfo {
    /// The same order, in memory of its own.
    pub fn copy(&self, alloc: Global) -> Result<OrderInfo, OutOfMemory>
        ensures { IfOk result (λ made. made ≡ self.now) }
    {
        match self {
            OrderInfo::Path { levels, statuses } => {
                let levels = Seq::from_vec(Vec::from_slice(alloc, levels.as_slice())?);
                let statuses = copied(alloc, statuses.as_slice())?;
                Ok(OrderInfo::Path { levels, statuses })
            }
            OrderInfo::Weights { weights } => {
                let weights = Seq::from_vec(Vec::from_slice(alloc, weights.as_slice())?);
                Ok(OrderInfo::Weights { weights })
            }
        }
    }
}

fn copied(alloc: Global, statuses: &[Seq<u8>]) -> Result<Seq<Seq<u8>>, OutOfMemory>
    ensures { IfOk result (λ made. made ≡ statuses.now) }
{
    let mut made = Seq::new(alloc);
    for status in statuses {
        made.push(Seq::from_vec(Vec::from_slice(alloc, status.as_slice())?))?;
    }
    Ok(made)
}

/// The order by number: each symbol's level is its number, and arguments are compared as written. A
/// symbol of more than 255 arguments, which no text declares, is answered as want of memory.
pub fn order_by_number(alloc: Global, sig: &Signature) -> Result<OrderInfo, OutOfMemory>
    ensures { IfOk result (λ order. order ≡ ordered_by_number sig.now) }
{
    let mut levels = Seq::new(alloc);
    let mut statuses = Seq::new(alloc);
    for number in 0..sig.symbols() {
        let arity = sig.info(SymId(number)).args.len();
        levels.push(number)?;
        statuses.push(as_written(alloc, arity)?)?;
    }
    Ok(OrderInfo::Path { levels, statuses })
}

/// The status that leaves the arguments as written: the numbers from 1 to `arity`, in order.
fn as_written(alloc: Global, arity: usize) -> Result<Seq<u8>, OutOfMemory>
    ensures { IfOk result (λ status. status ≡ range_with_len 1 arity) }
{
    if arity > 255 {
        return Err(OutOfMemory);
    }
    let mut status = Seq::new(alloc);
    for number in 0..arity {
        status.push(number as u8 + 1)?;
    }
    Ok(status)
}
