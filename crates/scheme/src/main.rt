// scheme: runs programs in a small Scheme whose data, environments and control stack all lie on a heap of `sorvekla`.
//
//     scheme [FILE] [--superpages N] [--frames N] [--nursery N] [--workers N] [--steps N] [--stats] [--log] [--trace FILE]
//
// `scheme_code` reads the text, and `scheme_run` has the machine that evaluates it; this crate has what the two leave out. `words` reads the
// command line. A `session` has the machine evaluate one form after another, and prints what it wants printed whenever the machine pauses.
// `files` runs a file and writes the trace, `prompt` runs what is typed in, and `report` has the tables of the counters.
//
// Nothing here is part of the theorem of `sorvekla`. It is proved to be safe and to end.
#![tactic(auto)]

mod ends;
mod files;
mod prompt;
mod report;
mod session;
mod words;

use ends::End;
use std::env;
use std::io::IsTerminal;
use std::process::ExitCode;
use std::rt::{Env, Files};
use std::thread::{Builder, Threads};

/// The bytes of the stack on which all work is done. It is there when the thread starts, or the start is refused.
const STACK: usize = 8 << 20;

fn main(rt: HostRuntime) -> ExitCode {
    let is_terminal = rt.stdin().is_terminal();
    let work = move || run(&rt, is_terminal);
    let end = match Builder::new().stack_size(STACK).spawn(&rt, work) {
        Ok(thread) => thread.join(&rt),
        Err(_) => End::NoRoom,
    };
    ExitCode::from(end.status())
}

/// Does what the command line asks for. A prompt shows its sign only on a terminal.
fn run<R>(rt: &R, is_terminal: bool) -> End
where
    R: AllocGlobal + Print + Eprint + Input + Files + Env + Threads + Sync,
{
    let Ok(arguments) = env::args(rt) else {
        return End::BadWords;
    };
    let Ok(words) = arguments.collect::<Vec<String>>(rt.alloc()) else {
        return End::NoRoom;
    };
    let mut texts = Vec::new(rt.alloc());
    for word in &words {
        if texts.push(word.as_str()).is_err() {
            return End::NoRoom;
        }
    }
    match words::request_of(rt.alloc(), &texts) {
        Ok(request) => files::answer(rt, &request, is_terminal),
        Err(error) => {
            let _ = error.print(rt);
            if error.use_stderr() {
                End::BadWords
            } else {
                End::Done
            }
        }
    }
}
