//! How far a search goes.

ghost use Rattle.std.specs.Prelude.{◌≡◌};
ghost use Rattle.command_line.specs.Usual.{usual_bounds};

/// How far the search for counterexamples goes.
#[derive(Clone, Copy, Debug, PartialEq, Eq)]
pub struct SearchBounds {
    /// The greatest depth of the values that are tried.
    pub depth: u32,
    /// How many substitutions of each goal are tried.
    pub tries: u32,
    /// How many rule uses the evaluation of one side may cost.
    pub steps: u32,
}

/// How far the search for counterexamples and then for proofs goes.
#[derive(Clone, Copy, Debug, PartialEq, Eq)]
pub struct ProofBounds {
    /// How far the search for counterexamples goes.
    pub search: SearchBounds,
    /// The greatest length of a plain proof.
    pub plain: u32,
    /// The greatest number of nodes of a routine proof.
    pub nodes: u32,
}

impl ProofBounds {
    /// The numbers that apply if no word gives one.
    pub fn usual() -> ProofBounds
        ensures { result ≡ usual_bounds }
    {
        ProofBounds {
            search: SearchBounds {
                depth: 3,
                tries: 10_000,
                steps: 1000,
            },
            plain: 500,
            nodes: 2000,
        }
    }
}
