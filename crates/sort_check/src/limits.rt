//! The numbers that tests of rules and goals have, by format.

ghost use Rattle.std.specs.Prelude.{◌≡◌};
ghost use Rattle.sort_check.specs.Limits.{most_rules_of_one};

/// How many variables a rule or a goal may have.
pub(crate) const VARIABLES: usize = 16;

/// How many symbols and variables a left side may have.
pub(crate) const LEFT_SIZE: u32 = 200;

/// How many rules a function may have, in a text of this format.
pub(crate) fn rules_of_one(version: u32) -> u32
    ensures { result ≡ most_rules_of_one version }
{
    if version == 2 { 128 } else { 64 }
}
