//! What the program is asked to do, and the reading of it.

ghost use Rattle.std.specs.Prelude.{◌≡◌, ℕ, List, false, Some, IfOk, IfNone, IfSome, map, option_map, option_to_list};
ghost use Rattle.bc_words.specs.Commands.{AsksFor, GivesWorkers, IsCommandOf, Word};

use crate::numbers::number;
use clap::error::ErrorKind;
use clap::{Arg, ArgAction};
use std::alloc::{AllocError, Global};

/// The number of workers where the words give none.
const ONE_WORKER: u32 = 1;

/// The most workers that the words may give.
const MOST_WORKERS: u64 = 16;

/// The greatest number that `churn` starts from, and the greatest number of phases that `save` replays.
const GREATEST: u64 = (1 << 63) - 1;

/// The most operations a lane that `churn` draws.
const MOST_OPS: u64 = 100_000;

/// What the program is asked to do.
#[derive(Clone, Copy, Debug, PartialEq, Eq)]
pub enum Command {
    /// Replay the trace that comes in, and print the replies.
    Run { workers: u32 },
    /// Replay a trace that is drawn from a starting number, and print how many replies of each kind there were. `ops` is
    /// the number of drawn operations of each lane.
    Churn { start: u64, ops: u32, workers: u32 },
    /// Replay the first phases of the trace that comes in, so many, and write an image of the heap.
    Save { phases: u64, workers: u32 },
    /// Read an image and the trace behind it, replay the phases that the image lacks, and print their replies.
    Resume { workers: u32 },
}

/// The command that the words are, which come without the program's name.
pub fn command_of(alloc: Global, words: &[&str]) -> Result<Option<Command>, AllocError>
    ensures command { IfOk result (λ found. IfSome found (λ c. IsCommandOf (map (λ w. w.now) words.now) c)) }
    ensures none { IfOk result (λ found. IfNone found ((c : Command) → ¬ IsCommandOf (map (λ w. w.now) words.now) c)) }
    ensures the_one { (c : Command) → IsCommandOf (map (λ w. w.now) words.now) c → IfOk result (λ found. found ≡ Some c) }
{
    let first = match words {
        [first, ..] if is_mode(first) => *first,
        _ => return Ok(None),
    };
    let workers = Arg::new(alloc, "workers").long("workers");
    let values = Arg::new(alloc, "values").action(ArgAction::Append);
    let command = clap::Command::new(alloc, first)
        .disable_help_flag(true)
        .disable_version_flag(true)
        .arg(workers)?
        .arg(values)?;
    match command.try_get_matches_from(words) {
        Ok(matches) => Ok(asked_for(
            first,
            matches.get_str("workers"),
            matches.get_strs("values").unwrap_or(&[]),
        )),
        Err(error) => match error.kind() {
            ErrorKind::OutOfMemory => Err(AllocError),
            _ => Ok(None),
        },
    }
}

/// Whether a command begins with this word.
fn is_mode(first: &str) -> bool
    ensures mode { result ≡ false → (values plain : List Word) (c : Command) → ¬ AsksFor first.now values plain c }
{
    first == "run" || first == "churn" || first == "save" || first == "resume"
}

/// The command that the first word, the value of `--workers` and the plain values ask for.
fn asked_for(first: &str, workers: Option<&str>, plain: &[&str]) -> Option<Command>
    ensures command { IfSome result (AsksFor first.now (option_to_list (option_map (λ w. w.now) workers.entry)) (map (λ w. w.now) plain.now)) }
    ensures the_one { (c : Command) →
        AsksFor first.now (option_to_list (option_map (λ w. w.now) workers.entry)) (map (λ w. w.now) plain.now) c → result ≡ Some c }
{
    let workers = workers_of(workers)?;
    match plain {
        [] if first == "run" => Some(Command::Run { workers }),
        [start, ops] if first == "churn" => {
            let start = number(start, 0, GREATEST)?;
            let ops = number(ops, 0, MOST_OPS)? as u32;
            Some(Command::Churn {
                start,
                ops,
                workers,
            })
        }
        [phases] if first == "save" => {
            let phases = number(phases, 0, GREATEST)?;
            Some(Command::Save { phases, workers })
        }
        [] if first == "resume" => Some(Command::Resume { workers }),
        _ => None,
    }
}

/// The number of workers that the value of `--workers` gives, if there is one.
fn workers_of(value: Option<&str>) -> Option<u32>
    ensures number { IfSome result (GivesWorkers (option_to_list (option_map (λ w. w.now) value.entry))) }
    ensures the_one { (n : ℕ) → GivesWorkers (option_to_list (option_map (λ w. w.now) value.entry)) n → result ≡ Some n }
{
    match value {
        None => Some(ONE_WORKER),
        Some(value) => Some(number(value, 1, MOST_WORKERS)? as u32),
    }
}
