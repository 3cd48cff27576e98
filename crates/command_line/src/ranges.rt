//! Numbers of options, and the usual ones.

/// The numbers that an option takes.
#[derive(Clone, Copy, Debug, PartialEq, Eq)]
pub struct NumberRange {
    pub least: u64,
    pub most: u64,
}

/// The greatest depth of the values that are tried.
pub const DEPTHS: NumberRange = NumberRange { least: 0, most: 8 };

/// How many substitutions of each goal are tried.
pub const TRIES: NumberRange = NumberRange {
    least: 1,
    most: 1_000_000,
};

/// How many rule uses an evaluation may cost.
pub const STEPS: NumberRange = NumberRange {
    least: 1,
    most: 100_000,
};

/// How long a plain proof may be.
pub const PLAIN: NumberRange = NumberRange {
    least: 0,
    most: 1000,
};

/// How many nodes a routine proof may have.
pub const NODES: NumberRange = NumberRange {
    least: 0,
    most: 10_000,
};

/// How many goals are generated.
pub const GOALS: NumberRange = NumberRange {
    least: 1,
    most: 200,
};

/// The depth if no word gives one.
pub const USUAL_DEPTH: &str = "3";

/// The tries if no word gives them.
pub const USUAL_TRIES: &str = "10000";

/// The steps if no word gives them.
pub const USUAL_STEPS: &str = "1000";

/// The length of a plain proof if no word gives one.
pub const USUAL_PLAIN: &str = "500";

/// The nodes if no word gives them.
pub const USUAL_NODES: &str = "2000";
