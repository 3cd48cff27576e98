//! The least depth of a value of each sort.

ghost use Rattle.std.specs.Prelude.{◌≡◌, IfOk, length};
ghost use Rattle.spec_core.specs.Sig.{SortsAreInRange};

use spec_core::Signature;
use std::alloc::Global;
use term_core::{OutOfMemory, SortId, SymId};

/// Stands for the depth of a value if none is found.
const NO_VALUE: u32 = 1000;

/// By sort, the least depth of a value. Each pass over the constructors settles one sort more.
pub(crate) fn least_depths(alloc: Global, sig: &Signature) -> Result<Vec<u32>, OutOfMemory>
    requires { SortsAreInRange sig.now }
{
    let mut depths = Vec::from_elem(alloc, NO_VALUE, sig.sorts() as usize)?;
    for _pass in 0..sig.sorts() {
        lower_all(sig, &mut depths);
    }
    Ok(depths)
}

/// Lowers the depths by each constructor's application.
fn lower_all(sig: &Signature, depths: &mut [u32])
    requires in_range { SortsAreInRange sig.now }
    requires long { length depths.old ≡ length sig.now.sorts }
{
    for number in 0..sig.constructors() {
        let info = sig.info(SymId(number));
        let depth = deepest(depths, info.args.as_slice()).saturating_add(1);
        let place = info.result.0 as usize;
        if depth < depths[place] {
            depths[place] = depth;
        }
    }
}

/// The greatest of the sorts' depths, or 0 if there are no sorts.
pub(crate) fn deepest(depths: &[u32], sorts: &[SortId]) -> u32 {
    let mut most = 0;
    for sort in sorts {
        most = depth_of(depths, *sort).max(most);
    }
    most
}

/// The least depth of a value of the sort, by these.
pub(crate) fn depth_of(depths: &[u32], sort: SortId) -> u32 {
    match depths.get(sort.0 as usize) {
        Some(depth) => *depth,
        None => NO_VALUE,
    }
}
