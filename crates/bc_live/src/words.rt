//! The words of the command line: where hints are drawn from, how many, and how many workers a heap has.

ghost use Rattle.std.specs.Prelude.{◌≡◌, ◌∷◌, Some, IfOk, IfNone, IfSome, map};
ghost use Rattle.bc_live.specs.Words.{AreTheNumbers, IsLiveWords};

use bc_words::number;
use clap::error::ErrorKind;
use clap::{Arg, ArgAction};
use std::alloc::{AllocError, Global};

/// The greatest number that hints are drawn from.
const GREATEST: u64 = (1 << 63) - 1;

/// The most hints that the feeder hands in.
const MOST_HINTS: u64 = 100_000;

/// The number of workers where the words give none.
const ONE_WORKER: u32 = 1;

/// The most workers that the words may give.
const MOST_WORKERS: u64 = 16;

/// What the words give.
#[derive(Clone, Copy, Debug, PartialEq, Eq)]
pub struct LiveWords {
    /// The number that hints are drawn from.
    pub start: u64,
    /// How many hints are handed in at most.
    pub count: u32,
    /// How many workers mark the heap.
    pub workers: u32,
}

/// What the words give, which come without the program's name: two numbers, or three.
///
/// `clap` says which words are plain values. Its command is that of `bc`, named by the first word. What it skips or takes as an option is
/// no value, so where all words are values there was none of that.
pub fn live_words_of(alloc: Global, words: &[&str]) -> Result<Option<LiveWords>, AllocError>
    ensures words { IfOk result (λ found. IfSome found (IsLiveWords (map (λ w. w.now) words.now))) }
    ensures none { IfOk result (λ found. IfNone found ((asked : LiveWords) → ¬ IsLiveWords (map (λ w. w.now) words.now) asked)) }
    ensures the_one { (asked : LiveWords) → IsLiveWords (map (λ w. w.now) words.now) asked → IfOk result (λ found. found ≡ Some asked) }
{
    let first = match words {
        [first, ..] => *first,
        _ => return Ok(None),
    };
    let workers = Arg::new(alloc, "workers").long("workers");
    let values = Arg::new(alloc, "values").action(ArgAction::Append);
    let command = clap::Command::new(alloc, first)
        .disable_help_flag(true)
        .disable_version_flag(true)
        .arg(workers)?
        .arg(values)?;
    match command.try_get_matches_from(words) {
        Ok(matches) => {
            let values = matches.get_strs("values").unwrap_or(&[]);
            if values.len() + 1 < words.len() {
                return Ok(None);
            }
            Ok(asked(first, values))
        }
        Err(error) => match error.kind() {
            ErrorKind::OutOfMemory => Err(AllocError),
            _ => Ok(None),
        },
    }
}

/// What the first word and the others give.
fn asked(first: &str, values: &[&str]) -> Option<LiveWords>
    ensures words { IfSome result (IsLiveWords (first.now ∷ map (λ w. w.now) values.now)) }
    ensures the_one { (asked : LiveWords) → IsLiveWords (first.now ∷ map (λ w. w.now) values.now) asked → result ≡ Some asked }
{
    match values {
        [count] => numbers(first, count, ONE_WORKER),
        [count, workers] => {
            let workers = number(workers, 1, MOST_WORKERS)? as u32;
            numbers(first, count, workers)
        }
        _ => None,
    }
}

/// What two words and a number of workers give.
fn numbers(start: &str, count: &str, workers: u32) -> Option<LiveWords>
    ensures words { IfSome result (AreTheNumbers start.now count.now workers) }
    ensures the_one { (asked : LiveWords) → AreTheNumbers start.now count.now workers asked → result ≡ Some asked }
{
    let start = number(start, 0, GREATEST)?;
    let count = number(count, 0, MOST_HINTS)? as u32;
    Some(LiveWords {
        start,
        count,
        workers,
    })
}
