//! How much input a command takes.

ghost use Rattle.std.specs.Prelude.{◌≡◌, List};
ghost use Rattle.bc_words.specs.Commands.{AsksFor, Word};
ghost use Rattle.bc_words.specs.declared.command.Command.{Command};
ghost use Rattle.bc_cli.specs.Limits.{longest_of};

use crate::resume::LONGEST_RESUMED;
use bc_replay::LONGEST_TRACE;

/// The most bytes that the input of a command may have, by the command's first word.
pub fn longest_input(first: &str) -> u64
    ensures { (values plain : List Word) (c : Command) → AsksFor first.now values plain c → result ≡ longest_of c }
{
    if first == "resume" {
        return LONGEST_RESUMED as u64;
    }
    LONGEST_TRACE as u64
}
