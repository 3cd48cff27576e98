//! How far the search goes.

/// How far the search for a proof goes. It is bounded by counts, so that it finds the same on
/// every machine.
#[derive(Clone, Copy)]
pub struct FreerBounds {
    /// The most nodes that are looked at for each bound of the cost, and the most of a block.
    pub nodes: u32,
    /// The most that choices may cost along a path.
    pub cost: u32,
}

/// How far it goes for a goal by itself.
pub const FREER_GOAL: FreerBounds = FreerBounds {
    nodes: 2000,
    cost: 2,
};
