//! Options in all orders.

use crate::tellings::asked;
use std::alloc::{AllocError, Global};
use std::process::Abort;
use std::test::Fail;

/// The lines of `refute` with these four pieces after it, in all of their 24 orders.
fn lines_of(alloc: Global, pieces: [&str; 4]) -> Result<Vec<String>, AllocError> {
    let mut lines = Vec::new(alloc);
    for number in 0..256_usize {
        let order = [number % 4, number / 4 % 4, number / 16 % 4, number / 64 % 4];
        if (0..4_usize).all(|place| order.contains(&place)) {
            let [first, second, third, last] = order;
            lines.push(format!(in alloc;
                "refute {} {} {} {}",
                pieces[first], pieces[second], pieces[third], pieces[last]
            )?)?;
        }
    }
    Ok(lines)
}

/// Asserts that the pieces ask for this in each order.
fn expect(rt: &impl Abort, alloc: Global, pieces: [&str; 4], want: &str) -> Result<(), Fail> {
    let lines = lines_of(alloc, pieces)?;
    assert_eq!(rt; lines.len(), 24);
    for line in &lines {
        assert_eq!(rt; asked(alloc, line.as_str())?.as_str(), want, "at {line}");
    }
    Ok(())
}

/// A value comes after its option or after `=`: eight spellings of three options.
#[test]
fn options_stand_anywhere(rt: HostRuntime) -> Result<(), Fail> {
    let alloc = rt.alloc();
    for number in 0..8_u32 {
        let depth = if number % 2 == 0 {
            "--depth 2"
        } else {
            "--depth=2"
        };
        let tries = if number / 2 % 2 == 0 {
            "--tries 5"
        } else {
            "--tries=5"
        };
        let steps = if number / 4 == 0 {
            "--steps 7"
        } else {
            "--steps=7"
        };
        expect(&rt, alloc, ["a", depth, tries, steps], "refute [a] 2 5 7")?;
    }
    Ok(())
}

/// Pieces of which one isn't to be there.
const FAULTY: [[&str; 4]; 8] = [
    ["a", "--depth 9", "--tries 5", "--steps 7"],
    ["a", "--depth 2", "--tries 0", "--steps 7"],
    ["a", "--depth 2", "--tries 5", "--steps 100001"],
    ["a", "--depth 2", "--depth=2", "--steps 7"],
    ["a", "b", "--depth 2", "--tries 5"],
    ["a", "--print", "--tries 5", "--steps 7"],
    ["a", "--help", "--tries 5", "--steps 7"],
    ["a", "--depth=", "--tries=5", "--steps=7"],
];

#[test]
fn faults_stand_anywhere(rt: HostRuntime) -> Result<(), Fail> {
    let alloc = rt.alloc();
    for pieces in FAULTY {
        expect(&rt, alloc, pieces, "nothing")?;
    }
    Ok(())
}
