//! `Same`: whether two values are one.

ghost use Rattle.std.specs.Prelude.{◌≡◌, ◌↔◌, IsTrue};

use term_core::{Name, Seq, SortId, Term};

/// Values that can be compared.
pub trait Same {
    /// Whether both are the same value.
    fn is_same(&self, other: &Self) -> bool
        ensures { IsTrue result ↔ (self.now ≡ other.now) };
}

/// Whether both lists have the same items in the same order.
pub fn same_all<T: Same>(items: &[T], others: &[T]) -> bool
    ensures { IsTrue result ↔ (items.now ≡ others.now) }
{
    if items.len() != others.len() {
        return false;
    }
    for (number, item) in items.iter().enumerate() {
        if !item.is_same(&others[number]) {
            return false;
        }
    }
    true
}

impl<T: Same + Drop> Same for Seq<T> {
    fn is_same(&self, other: &Seq<T>) -> bool {
        same_all(self.as_slice(), other.as_slice())
    }
}

impl Same for u8 {
    fn is_same(&self, other: &u8) -> bool {
        *self == *other
    }
}

impl Same for u32 {
    fn is_same(&self, other: &u32) -> bool {
        *self == *other
    }
}

impl Same for Name {
    fn is_same(&self, other: &Name) -> bool {
        self.as_bytes() == other.as_bytes()
    }
}

impl Same for SortId {
    fn is_same(&self, other: &SortId) -> bool {
        self.0 == other.0
    }
}

impl Same for Term {
    fn is_same(&self, other: &Term) -> bool {
        self.same(other)
    }
}
