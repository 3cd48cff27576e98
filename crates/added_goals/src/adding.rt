//! `adds_goals`: whether a specification is another one with further goals.

ghost use Rattle.std.specs.Prelude.{◌↔◌, IsTrue};
ghost use Rattle.sort_check.specs.StandsFor.{StandsFor};
ghost use Rattle.added_goals.specs.Additions.{AddsGoals};

use crate::keeping::are_kept;
use crate::same::{Same, same_all};
use crate::signatures::same_signature;
use spec_core::Spec;
use spec_grammar::RawSpec;

/// Whether the new specification, for which the raw one stands, is the old one with further goals.
pub fn adds_goals(old: &Spec, new: &Spec, raw: &RawSpec) -> bool
    requires { StandsFor raw.now new.now }
    ensures { IsTrue result ↔ AddsGoals old.now new.now }
{
    same_signature(&old.sig, &new.sig, raw.sorts.as_slice())
        && new.order.is_same(&old.order)
        && same_all(new.rules.as_slice(), old.rules.as_slice())
        && are_kept(old.goals.as_slice(), new.goals.as_slice())
}
