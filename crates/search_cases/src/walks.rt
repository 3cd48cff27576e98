//! What a walk of a list of verdicts finds.
use ground_eval::Verdict;

/// What a search is to answer: the place of what it finds, or how many members it looked at, how
/// many of these have the verdict Spent, and whether there are more.
#[derive(Clone, Copy)]
pub enum Walk {
    Found(u32),
    NotFound { tried: u32, skipped: u32, cut: bool },
}

/// The walk of the first `tries` of the verdicts.
pub fn walk_through(verdicts: &[Verdict], tries: u32) -> Walk {
    let mut tried: u32 = 0;
    let mut skipped: u32 = 0;
    for verdict in verdicts {
        if tried == tries {
            return Walk::NotFound {
                tried,
                skipped,
                cut: true,
            };
        }
        match verdict {
            Verdict::Fails => return Walk::Found(tried),
            Verdict::Spent => skipped = skipped.saturating_add(1),
            Verdict::Holds => {}
        }
        tried = tried.saturating_add(1);
    }
    Walk::NotFound {
        tried,
        skipped,
        cut: false,
    }
}
