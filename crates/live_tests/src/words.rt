//! Which words the program takes.

use crate::equal::same;
use bc_live::{LiveWords, live_words_of};
use std::alloc::{AllocError, Global};
use std::process::Abort;
use std::test::Fail;

/// Shows what the words, which stand between spaces, give.
fn gives<R: Abort>(
    rt: &R,
    alloc: Global,
    text: &str,
    wanted: Option<LiveWords>,
) -> Result<(), AllocError> {
    let mut words = Vec::new(alloc);
    for word in text.split(' ') {
        words.push(word)?;
    }
    same(rt, live_words_of(alloc, &words)?, wanted);
    Ok(())
}

#[test]
fn two_numbers_or_three_are_taken(rt: HostRuntime) -> Result<(), Fail> {
    let one = LiveWords {
        start: 1,
        count: 1,
        workers: 1,
    };
    gives(&rt, rt.alloc(), "1 1", Some(one))?;
    gives(&rt, rt.alloc(), "1 1 1", Some(one))?;
    let most = LiveWords {
        start: 9_223_372_036_854_775_807,
        count: 100_000,
        workers: 16,
    };
    gives(&rt, rt.alloc(), "9223372036854775807 100000 16", Some(most))?;
    Ok(())
}

/// Words that aren't two numbers or three in their ranges.
const BAD: [&str; 11] = [
    "1",
    "01 1",
    "1 100001",
    "1 1 0",
    "1 1 17",
    "1 1 1 1",
    "-- 1 1",
    "1 -- 1",
    "9223372036854775808 1",
    "1 1 --workers=1",
    "run",
];

#[test]
fn other_words_are_refused(rt: HostRuntime) -> Result<(), Fail> {
    for text in BAD {
        gives(&rt, rt.alloc(), text, None)?;
    }
    Ok(())
}
