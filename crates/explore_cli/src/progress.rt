//! `Lines`: the lines of the progress, on a sink.

use io_core::{Sink, write_all};
use lemma_search::Progress;
use std::alloc::Global;

/// The lines of the progress, on a sink. A line that can't be written is lost: the exploration goes
/// on.
#[derive(Drop)]
pub struct Lines<'a, S> {
    pub alloc: Global,
    pub sink: &'a mut S,
    /// Whether no line is written.
    pub quiet: bool,
}

impl<'a, S: Sink> Progress for Lines<'a, S> {
    fn tell(&mut self, line: &[u8]) {
        if self.quiet {
            return;
        }
        let _line = write_all(self.sink, self.alloc, line);
        let _end = write_all(self.sink, self.alloc, b"\n");
    }
}
