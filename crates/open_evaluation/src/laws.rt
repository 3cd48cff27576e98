ghost use Rattle.open_evaluation.specs.ConstantExamples.{WorkedConstants};
ghost use Rattle.open_evaluation.specs.ConstantLaws.{ShiftedApart, InstancesAreShifted};
ghost use Rattle.open_evaluation.specs.ConstantLaws.{InstancesAreClosed, OfExtended, SortsAreKept};
ghost use Rattle.open_evaluation.specs.ConstantLaws.{ClosedAreSorted, ValuesAreKept};
ghost use Rattle.open_evaluation.specs.ConstantLaws.{ConstantsAreValues, GoalsAreKept};
ghost use Rattle.open_evaluation.specs.ConstantLaws.{NoOverlapIsKept, WholeGroupsAreKept};
ghost use Rattle.open_evaluation.specs.WalkExamples.{WorkedExamples};
ghost use Rattle.open_evaluation.specs.WalkLaws.{ClosedTermsGiveTheSame, ClosingIsInjective};
ghost use Rattle.open_evaluation.specs.WalkLaws.{ClosingKeepsInstances, ClosingKeepsValues};
ghost use Rattle.open_evaluation.specs.WalkLaws.{ConstantsGiveOpenly, InstancesGive};
ghost use Rattle.open_evaluation.specs.WalkLaws.{OpenGivesWithConstants, OpenInstancesGive};
ghost use Rattle.open_evaluation.specs.WalkLaws.{OpenVerdictsHold, OpenVerdictsStay};

/// Different terms are different with the new numbers.
pub fn shifted_apart()
    ensures { ShiftedApart }
{}

/// The new numbers go through instances.
pub fn instances_are_shifted()
    ensures { InstancesAreShifted }
{}

/// Constants for variables go through instances in which each variable has an entry.
pub fn instances_are_closed()
    ensures { InstancesAreClosed }
{}

/// A term has its sort with the new numbers.
pub fn sorts_are_kept()
    ensures { OfExtended SortsAreKept }
{}

/// A term has its sort with a constant for each variable.
pub fn closed_are_sorted()
    ensures { OfExtended ClosedAreSorted }
{}

/// Values stay values of their sorts, and stay as they are.
pub fn values_are_kept()
    ensures { OfExtended ValuesAreKept }
{}

/// A constant is a value of its sort.
pub fn constants_are_values()
    ensures { OfExtended ConstantsAreValues }
{}

/// A well sorted goal is well sorted with the new numbers.
pub fn goals_are_kept()
    ensures { OfExtended GoalsAreKept }
{}

/// Left sides that don't overlap don't overlap with the constants.
pub fn no_overlap_is_kept()
    ensures { OfExtended NoOverlapIsKept }
{}

/// Whole groups are whole with the constants.
pub fn whole_groups_are_kept()
    ensures { OfExtended WholeGroupsAreKept }
{}

/// The definitions say of naturals with a constant what one works out by hand.
pub fn worked_constants()
    ensures { WorkedConstants }
{}

/// What a term gives openly, it gives under any values of its variables, at the same cost.
pub fn instances_give()
    ensures { InstancesGive }
{}

/// What a term gives openly, it gives under any open values of its variables, at the same cost.
pub fn open_instances_give()
    ensures { OpenInstancesGive }
{}

/// A verdict of the open walk stays when open values take the place of variables.
pub fn open_verdicts_stay()
    ensures { OpenVerdictsStay }
{}

/// A verdict of the open walk is the verdict of every list of values that goes on with the fixed
/// ones.
pub fn open_verdicts_hold()
    ensures { OpenVerdictsHold }
{}

/// A term without variables gives openly what it gives, and nothing else.
pub fn closed_terms_give_the_same()
    ensures { ClosedTermsGiveTheSame }
{}

/// Two terms with constants for their variables are the same only if the terms are.
pub fn closing_is_injective()
    ensures { ClosingIsInjective }
{}

/// An instance with constants is one of the term with the new numbers, under the entries with
/// constants.
pub fn closing_keeps_instances()
    ensures { ClosingKeepsInstances }
{}

/// A value has no variable and keeps its symbols.
pub fn closing_keeps_values()
    ensures { ClosingKeepsValues }
{}

/// What a term gives openly, it gives with a constant for each variable, at the same cost.
pub fn open_gives_with_constants()
    ensures { OpenGivesWithConstants }
{}

/// What a term gives with a constant for each variable is an open value with constants, which it
/// gives at the same cost.
pub fn constants_give_openly()
    ensures { ConstantsGiveOpenly }
{}

/// The definitions say of naturals with addition what one works out by hand.
pub fn worked_examples()
    ensures { WorkedExamples }
{}
