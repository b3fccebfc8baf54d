//! What the program is asked, and the reading of it.

ghost use Rattle.std.specs.Prelude.{◌≡◌, ℕ, Some, IfOk, IfNone, IfSome, length, map};
ghost use Rattle.bc_heapview.specs.Questions.{Asks, IsQuestionOf};

use bc_model::Birth;
use bc_words::number;
use clap::error::ErrorKind;
use clap::{Arg, ArgAction};
use std::alloc::{AllocError, Global};

/// The last lane that a heap may have.
const LAST_LANE: u64 = 15;

/// What the program is asked of a heap.
#[derive(Clone, Copy, Debug, PartialEq, Eq)]
pub enum Question {
    /// How many objects of each domain and class there are, and how many superpages they need.
    Counts,
    /// How to come to the object of this birth.
    Path { birth: Birth },
}

/// The question that the words are, which come without the program's name: `counts`, or `path`, a lane and a serial.
///
/// `clap` says which words are plain values. Its command is that of `bc`. What it skips or takes as an option is no value,
/// so where all words are values there was none of that.
pub fn question_of(alloc: Global, words: &[&str]) -> Result<Option<Question>, AllocError>
    ensures question { IfOk result (λ found. IfSome found (λ q. IsQuestionOf (map (λ w. w.now) words.now) q)) }
    ensures none { IfOk result (λ found. IfNone found ((q : Question) → ¬ IsQuestionOf (map (λ w. w.now) words.now) q)) }
    ensures the_one { (q : Question) → IsQuestionOf (map (λ w. w.now) words.now) q → IfOk result (λ found. found ≡ Some q) }
{
    let first = match words {
        [first, ..] if *first == "counts" || *first == "path" => *first,
        _ => return Ok(None),
    };
    let workers = Arg::new(alloc, "workers").long("workers");
    let values = Arg::new(alloc, "values").action(ArgAction::Append);
    let command = clap::Command::new(alloc, first)
        .disable_help_flag(true)
        .disable_version_flag(true)
        .arg(workers)?
        .arg(values)?;
    match command.try_get_matches_from(words) {
        Ok(matches) => {
            let values = matches.get_strs("values").unwrap_or(&[]);
            if values.len() + 1 < words.len() {
                return Ok(None);
            }
            Ok(asked(first, values))
        }
        Err(error) => match error.kind() {
            ErrorKind::OutOfMemory => Err(AllocError),
            _ => Ok(None),
        },
    }
}

/// The question that the first word and the others ask.
fn asked(first: &str, values: &[&str]) -> Option<Question>
    ensures question { IfSome result (Asks first.now (map (λ w. w.now) values.now)) }
    ensures the_one { (q : Question) → Asks first.now (map (λ w. w.now) values.now) q → result ≡ Some q }
{
    match values {
        [] if first == "counts" => Some(Question::Counts),
        [lane, serial] if first == "path" => {
            let lane = number(lane, 0, LAST_LANE)? as u32;
            let serial = number(serial, 1, u64::from(u32::MAX))? as u32;
            Some(Question::Path {
                birth: Birth { lane, serial },
            })
        }
        _ => None,
    }
}
