//! A call of `run` on files in memory, and how it ended.

use io_core::{MemFiles, MemSink, Sink};
use spike_cli::{Status, run};
use std::alloc::Global;
use std::test::Fail;
use term_core::{Name, OutOfMemory, Seq};

/// A call of the program: its words, with blanks between them, and the texts of the two files that
/// they may name, `spec` and `report`.
#[derive(Clone, Copy)]
pub struct Call<'a> {
    pub words: &'a str,
    pub spec: &'a str,
    pub report: &'a str,
}

/// How a call ended, and what it wrote.
#[derive(Drop)]
pub struct Ended {
    pub status: Status,
    pub text: String,
}

impl Call<'_> {
    /// Makes the call. Nothing fails.
    pub fn ended(&self, alloc: Global) -> Result<Ended, Fail> {
        let mut out = MemSink::new(alloc, Seq::new(alloc));
        let status = self.over(alloc, &mut out)?;
        let text = String::from_str(alloc, str::from_utf8(out.bytes())?)?;
        Ok(Ended { status, text })
    }

    /// Makes the call over this sink.
    pub fn over<S: Sink>(&self, alloc: Global, out: &mut S) -> Result<Status, OutOfMemory> {
        self.with_read_failing(alloc, 0, out)
    }

    /// Makes the call over this sink. The read with this number fails. Reads count from 1.
    pub fn with_read_failing<S: Sink>(
        &self,
        alloc: Global,
        read: u64,
        out: &mut S,
    ) -> Result<Status, OutOfMemory> {
        let mut words = Vec::new(alloc);
        for word in self.words.split_whitespace() {
            words.push(word.to_string(alloc)?)?;
        }
        let mut files = self.files(alloc, read)?;
        Ok(run(alloc, &words, &mut files, out))
    }

    fn files(&self, alloc: Global, failing_read: u64) -> Result<MemFiles, OutOfMemory> {
        let mut files = Seq::new(alloc);
        for (name, text) in [("spec", self.spec), ("report", self.report)] {
            let bytes = Seq::from_vec(Vec::from_slice(alloc, text.as_bytes())?);
            files.push((Name::of(alloc, name.as_bytes())?, bytes))?;
        }
        Ok(MemFiles::new(files, one_number(alloc, failing_read)?))
    }
}

/// A list of this number alone.
pub fn one_number(alloc: Global, number: u64) -> Result<Seq<u64>, OutOfMemory> {
    Ok(Seq::from_vec(Vec::from_slice(alloc, &[number])?))
}
