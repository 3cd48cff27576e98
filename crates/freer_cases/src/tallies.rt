//! How cases come out.

use crate::cases::holds;
use crate::groups::Group;
use anyhow::Result;
use std::alloc::Global;

/// How many cases come out as they are written, and the others.
#[derive(Drop)]
pub struct Tally {
    pub right: u64,
    pub otherwise: Vec<String>,
}

impl Tally {
    /// No cases yet.
    pub fn new(alloc: Global) -> Tally {
        Tally {
            right: 0,
            otherwise: Vec::new(alloc),
        }
    }

    /// Counts the cases of the group.
    pub fn count(&mut self, alloc: Global, group: &Group) -> Result<()> {
        for line in group.cases.as_slice() {
            if is_right(alloc, group, line.as_str())? {
                self.right = self.right.saturating_add(1);
            } else {
                self.otherwise
                    .push(String::from_str(alloc, line.as_str())?)?;
            }
        }
        Ok(())
    }
}

/// Whether the case of this line comes out as it is written.
fn is_right(alloc: Global, group: &Group, line: &str) -> Result<bool> {
    let words: Vec<&str> = line.split_whitespace().collect(alloc)?;
    holds(alloc, group.text.as_slice(), words.as_slice())
}
