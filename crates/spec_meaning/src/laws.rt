ghost use Rattle.spec_meaning.specs.Laws.{PlacesMeanNothing, UpgradesStandForTheSame};

/// Raw specifications that are the same apart from places stand for the same specification.
pub fn places_mean_nothing()
    ensures { PlacesMeanNothing }
{}

/// What declarations stand for in format 1 they stand for in format 2.
pub fn upgrades_stand_for_the_same()
    ensures { UpgradesStandForTheSame }
{}
