//! The program of a file, and the trace of a session.

use crate::ends::End;
use crate::prompt::prompt;
use crate::report::print_counters;
use crate::session::{Session, report_syntax};
use crate::words::Request;
use std::fs;
use std::rt::Files;
use std::thread::Threads;

/// Does what is asked for.
pub fn answer<R>(rt: &R, request: &Request, is_terminal: bool) -> End
where
    R: AllocGlobal + Print + Eprint + Input + Files + Threads + Sync,
{
    let mut session = match Session::open(rt, request) {
        Ok(session) => session,
        Err(end) => return end,
    };
    let end = match request.file {
        Some(path) => run_file(rt, &mut session, path),
        None => prompt(rt, &mut session, is_terminal),
    };
    let steps = session.steps();
    if request.stats {
        let counters = session.machine.memory().counters();
        let _ = print_counters(rt, steps, &request.limits, &counters);
    }
    match request.trace {
        Some(path) => write_trace(rt, &mut session, path, end),
        None => end,
    }
}

/// Runs the program of a file.
fn run_file<R>(rt: &R, session: &mut Session, path: &str) -> End
where
    R: AllocGlobal + Print + Eprint + Files + Threads + Sync,
{
    let text = match fs::read_to_string(rt, path) {
        Ok(text) => text,
        Err(error) => {
            let _ = eprintln!(rt; "scheme: {path}: {error}");
            return End::NoRoom;
        }
    };
    let nodes = match session.program.read(text.as_str(), 1) {
        Ok(nodes) => nodes,
        Err(error) => return report_syntax(rt, path, error),
    };
    match session.evaluate(rt, path, &nodes) {
        Ok(()) => End::Done,
        Err(end) => end,
    }
}

/// Writes the trace of a session that ended so.
fn write_trace<R: Eprint + Files>(rt: &R, session: &mut Session, path: &str, end: End) -> End {
    let Some(trace) = session.machine.trace() else {
        return End::NoRoom;
    };
    match fs::write(rt, path, trace) {
        Ok(()) => end,
        Err(error) => {
            let _ = eprintln!(rt; "scheme: {path}: {error}");
            End::NoRoom
        }
    }
}
