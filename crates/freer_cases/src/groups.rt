//! A specification with its cases.

use anyhow::Result;
use std::alloc::Global;

/// The text of a specification, and the lines of its cases.
#[derive(Drop)]
pub struct Group {
    pub text: Vec<u8>,
    pub cases: Vec<String>,
}

impl Group {
    /// No lines yet.
    pub fn new(alloc: Global) -> Group {
        Group {
            text: Vec::new(alloc),
            cases: Vec::new(alloc),
        }
    }

    /// Adds a line: a case, or one of the specification.
    pub fn add(&mut self, line: String) -> Result<()> {
        if line.as_str().starts_with("case ") {
            self.cases.push(line)?;
            return Ok(());
        }
        self.text.extend_from_slice(line.as_str().as_bytes())?;
        self.text.push(b'\n')?;
        Ok(())
    }

    /// Takes all lines away.
    pub fn clear(&mut self) {
        self.text.clear();
        self.cases.clear();
    }
}
