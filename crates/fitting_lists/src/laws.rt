ghost use Rattle.std.specs.Prelude.{◌≡◌, List};
ghost use Rattle.term_core.specs.Tree.{Tree, instance};
ghost use Rattle.fitting_lists.specs.Examples.{WorkedExamples};
ghost use Rattle.fitting_lists.specs.Spines.{spine_of, MayBecome, missing_in};

/// The definitions say of a few clauses what one works out by hand.
pub fn worked_examples()
    ensures { WorkedExamples }
{}

/// If some list makes a pattern a term, their spines say that the one may become the other.
pub fn spines_may_become()
    ensures { (list : List Tree) (p t : Tree) →
        instance list p ≡ t → MayBecome (spine_of p) (spine_of t) }
{}

/// If some list makes a pattern a term, none of the symbols along the pattern is missing along
/// the term.
pub fn nothing_is_missing()
    ensures { (list : List Tree) (p t : Tree) →
        instance list p ≡ t → missing_in (spine_of p) t ≡ 0 }
{}
