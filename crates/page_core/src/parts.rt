//! `Format`, `Style`, `Anchor` and `Part`.

/// How a page is written.
#[derive(Clone, Copy, Debug, PartialEq, Eq)]
pub enum Format {
    Html,
    Text,
}

/// How a text is shown.
#[derive(Clone, Copy, Debug, PartialEq, Eq)]
pub enum Style {
    Plain,
    /// As the place that a step is about.
    Marked,
}

/// What a link leads to. Goals and nodes count from 0.
#[derive(Clone, Copy, Debug, PartialEq, Eq)]
pub enum Anchor {
    Goal(u32),
    Node { goal: u32, node: u32 },
}

/// A part of a page. Goals and nodes count from 0.
#[derive(Clone, Copy, Debug, PartialEq, Eq)]
pub enum Part {
    /// The whole page.
    Document,
    /// The page's heading.
    Heading,
    /// The list of all goals.
    Goals,
    /// A goal in that list.
    GoalLine,
    /// What is said of a goal.
    Goal(u32),
    GoalHeading,
    Note,
    /// The clause of a node.
    Node { goal: u32, node: u32 },
    /// The words of a node's step.
    Step,
    /// A case of a split, with all that follows from it.
    Case,
    CaseHeading,
    /// The value of a variable that refutes a goal.
    Value,
}
