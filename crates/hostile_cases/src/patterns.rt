//! Texts by patterns: a piece a number of times, and a mark at a place.

use std::alloc::Global;
use std::test::Fail;

/// The text that a pattern stands for. In it `{NUMBER PIECE}` is the piece this many times, in
/// which each `$` is the number of the time, from 0.
pub fn expanded(alloc: Global, pattern: &str) -> Result<String, Fail> {
    let mut text = String::new(alloc);
    for part in pattern.split('{') {
        match part.split_once('}') {
            Some((repeated, rest)) => {
                push_repeated(alloc, repeated, &mut text)?;
                text.push_str(rest)?;
            }
            None => text.push_str(part)?,
        }
    }
    Ok(text)
}

fn push_repeated(alloc: Global, repeated: &str, text: &mut String) -> Result<(), Fail> {
    let (count, piece) = repeated.split_once(' ').ok_or("no number in braces")?;
    let count = count.parse::<u32>()?;
    if !piece.contains('$') {
        text.push_str(piece.repeat(alloc, count as usize)?.as_str())?;
        return Ok(());
    }
    for number in 0..count {
        let number = number.to_string(alloc)?;
        text.push_str(piece.replace(alloc, '$', number.as_str())?.as_str())?;
    }
    Ok(())
}

/// A text in which the mark `@` was at a place, and was taken out.
#[derive(Drop)]
pub struct Marked {
    pub text: String,
    pub place: usize,
}

impl Marked {
    /// The text of a pattern. If it has no mark, the place is its end.
    pub fn of(alloc: Global, pattern: &str) -> Result<Marked, Fail> {
        let text = expanded(alloc, pattern)?;
        let place = text.find('@').unwrap_or(text.len());
        let text = text.replace(alloc, '@', "")?;
        Ok(Marked { text, place })
    }

    /// The line of a pattern, in which each `@` is the number of the place, and its newline.
    pub fn in_line(&self, alloc: Global, pattern: &str) -> Result<String, Fail> {
        let place = self.place.to_string(alloc)?;
        let line = expanded(alloc, pattern)?;
        let mut line = line.replace(alloc, '@', place.as_str())?;
        line.push('\n')?;
        Ok(line)
    }
}
