//! The path ordering of the cases, by levels and statuses.
ghost use Rattle.std.specs.Prelude.{◌≡◌, IfOk};

use path_order::Lpo;
use std::alloc::Global;
use term_core::{OutOfMemory, Seq};

/// The levels of the symbols before `f`: `s` and `-` have one level, and so have `*` and `A`.
const LEVELS: [u32; 8] = [0, 1, 2, 3, 4, 6, 6, 3];

/// The ordering in which `+` and `A` compare their second argument first.
pub fn order_by_levels(alloc: Global) -> Result<Lpo, OutOfMemory> {
    let levels = Seq::from_vec(Vec::from_slice(alloc, &LEVELS)?);
    let mut statuses = Seq::new(alloc);
    statuses.push(Seq::new(alloc))?;
    statuses.push(Seq::new(alloc))?;
    statuses.push(Seq::new(alloc))?;
    statuses.push(status(alloc, &[1])?)?;
    statuses.push(status(alloc, &[2, 1])?)?;
    statuses.push(status(alloc, &[1, 2])?)?;
    statuses.push(status(alloc, &[2, 1])?)?;
    statuses.push(status(alloc, &[1])?)?;
    Ok(Lpo::with(levels, statuses))
}

fn status(alloc: Global, numbers: &[u8]) -> Result<Seq<u8>, OutOfMemory>
    ensures { IfOk result (λ made. made ≡ numbers.now) }
{
    Ok(Seq::from_vec(Vec::from_slice(alloc, numbers)?))
}
