//! Numbers of options, and the usual ones.

use command_line::NumberRange;

/// How many units of work a stage may take.
pub const WORK: NumberRange = NumberRange {
    least: 0,
    most: 1_000_000_000,
};

/// The size of the greatest terms that are compared.
pub const SIZES: NumberRange = NumberRange { least: 1, most: 12 };

/// On how many random values terms are compared.
pub const SAMPLES: NumberRange = NumberRange {
    least: 1,
    most: 200,
};

/// The work if no word gives it.
pub const USUAL_WORK: &str = "1000000";

/// The size if no word gives it.
pub const USUAL_SIZE: &str = "7";

/// The samples if no word gives them.
pub const USUAL_SAMPLES: &str = "30";
