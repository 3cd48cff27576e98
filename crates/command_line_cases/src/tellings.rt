//! What is asked, as text.

use command_line::{Command, Request, request_of};
use std::alloc::{AllocError, Global};
use std::test::Fail;

/// The words of a line, with a blank between two. `''` stands for the empty word.
fn words_of(alloc: Global, line: &str) -> Result<Vec<String>, AllocError> {
    let mut words = Vec::new(alloc);
    for word in line.split(' ') {
        words.push(if word == "''" { "" } else { word }.to_string(alloc)?)?;
    }
    Ok(words)
}

/// What the words of a line ask for: the command, its positional words in brackets, and its numbers
/// in the order of the usage; or `nothing`.
pub fn asked(alloc: Global, line: &str) -> Result<String, Fail> {
    let words = words_of(alloc, line)?;
    let told = match request_of(alloc, &words)? {
        Some(Request::OnFile(Command::Refute { file, bounds })) => {
            let (depth, tries, steps) = (bounds.depth, bounds.tries, bounds.steps);
            format!(in alloc; "refute [{file}] {depth} {tries} {steps}")?
        }
        Some(Request::OnFile(Command::Prove { file, bounds })) => {
            let search = bounds.search;
            let (depth, tries, steps) = (search.depth, search.tries, search.steps);
            let (plain, nodes) = (bounds.plain, bounds.nodes);
            format!(in alloc; "prove [{file}] {depth} {tries} {steps} {plain} {nodes}")?
        }
        Some(Request::OnFile(Command::Eval { file, term, steps })) => {
            format!(in alloc; "eval [{file}] [{term}] {steps}")?
        }
        Some(Request::OnFile(Command::Check { file, print })) => {
            format!(in alloc; "check [{file}] print {print}")?
        }
        Some(Request::OnFile(Command::Replay { file, report })) => {
            format!(in alloc; "replay [{file}] [{report}]")?
        }
        Some(Request::OnFile(Command::Upgrade { file })) => {
            format!(in alloc; "upgrade [{file}]")?
        }
        Some(Request::OnFile(Command::Trim { file, report })) => {
            format!(in alloc; "trim [{file}] [{report}]")?
        }
        Some(Request::OnFile(Command::Session { file, commands })) => {
            format!(in alloc; "session [{file}] [{commands}]")?
        }
        Some(Request::Load(goals)) => format!(in alloc; "load {goals}")?,
        None => "nothing".to_string(alloc)?,
    };
    Ok(told)
}
