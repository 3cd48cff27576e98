//! The words after a program's name.

use crate::statuses::Status;
use std::{env, io};

/// The exit status if a word isn't UTF-8.
const WORDS_NOT_UTF8: u8 = 9;

/// The words after the program's name, or the exit status if they can't be had.
pub fn words_of(rt: &(impl env::Env + AllocGlobal)) -> Result<Vec<String>, u8> {
    let mut words = Vec::new(rt.alloc());
    let args = env::args(rt).map_err(|error| match error.kind() {
        io::ErrorKind::InvalidData => WORDS_NOT_UTF8,
        _ => Status::OutOfMemory.code(),
    })?;
    for word in args.skip(1) {
        words.push(word).map_err(|_| Status::OutOfMemory.code())?;
    }
    Ok(words)
}
