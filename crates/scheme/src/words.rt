//! The words of the command line.

use clap::builder::ValueParser;
use clap::{Arg, ArgAction, ArgMatches, Command, Error};
use scheme_heap::Limits;
use std::alloc::Global;

/// What the program is asked to do.
#[derive(Clone, Copy)]
pub struct Request<'a> {
    /// The file to run. Without one standard input is read as a prompt.
    pub file: Option<&'a str>,
    pub limits: Limits,
    /// The most steps that the program may take.
    pub steps: u64,
    /// Whether counters are printed at the end, and a line at each collection.
    pub stats: bool,
    pub log: bool,
    /// The file to which a trace is written.
    pub trace: Option<&'a str>,
}

/// The request that the words are, of which the first is the program's name.
pub fn request_of<'a>(alloc: Global, words: &'a [&'a str]) -> Result<Request<'a>, Error> {
    let command = Command::new(alloc, "scheme")
        .about("Runs a program in a small Scheme on a heap that moves, frees and pages.")
        .arg(
            Arg::new(alloc, "file")
                .value_name("FILE")
                .help("The program. Without one, a prompt reads standard input"),
        )?;
    let command = with_limits(alloc, command)?;
    let command = with_reports(alloc, command)?;
    let matches = command.try_get_matches_from(words)?;
    Ok(Request {
        file: matches.get_str("file"),
        limits: limits_of(&matches),
        steps: matches.get_one::<u64>("steps").unwrap_or(u64::MAX),
        stats: matches.get_flag("stats"),
        log: matches.get_flag("log"),
        trace: matches.get_str("trace"),
    })
}

/// An option that takes a number.
fn number<'a>(alloc: Global, name: &'a str, most: u64, help: &'a str) -> Result<Arg<'a>, Error> {
    let arg = Arg::new(alloc, name)
        .long(name)
        .value_name("N")
        .value_parser(ValueParser::unsigned(0, most))
        .help(help);
    Ok(arg)
}

/// The command with the options that say how large the heap is.
fn with_limits<'a>(alloc: Global, command: Command<'a>) -> Result<Command<'a>, Error> {
    let most = u64::from(u32::MAX);
    let superpages = number(
        alloc,
        "superpages",
        most,
        "Superpages of 16 KiB in the heap, from 1 to 4096 [default: 256]",
    )?;
    let frames = number(
        alloc,
        "frames",
        most,
        "Pages of 4 KiB that may be in memory at a time [default: all]",
    )?;
    let nursery = number(
        alloc,
        "nursery",
        most,
        "Nursery pages of 4 KiB, from 1 to 16 [default: 4]",
    )?;
    let workers = number(
        alloc,
        "workers",
        most,
        "Threads of a collection, from 1 to 16 [default: 1]",
    )?;
    let steps = number(
        alloc,
        "steps",
        u64::MAX,
        "Steps after which the program is ended [default: 18446744073709551615]",
    )?;
    Ok(
        command
            .arg(superpages)?
            .arg(frames)?
            .arg(nursery)?
            .arg(workers)?
            .arg(steps)?,
    )
}

/// The command with the options that say what is written beside the output.
fn with_reports<'a>(alloc: Global, command: Command<'a>) -> Result<Command<'a>, Error> {
    let stats = Arg::new(alloc, "stats")
        .long("stats")
        .action(ArgAction::SetTrue)
        .help("Prints counters to standard error at the end");
    let log = Arg::new(alloc, "log")
        .long("log")
        .action(ArgAction::SetTrue)
        .help("Prints a line to standard error at each collection");
    let trace = Arg::new(alloc, "trace")
        .long("trace")
        .value_name("FILE")
        .help("Writes what was done on the heap as a trace that bc replays");
    Ok(command.arg(stats)?.arg(log)?.arg(trace)?)
}

/// The limits of the heap.
fn limits_of(matches: &ArgMatches) -> Limits {
    let usual = Limits::default();
    Limits {
        superpages: matches
            .get_one::<u32>("superpages")
            .unwrap_or(usual.superpages),
        frames: matches.get_one::<u32>("frames").unwrap_or(usual.frames),
        nursery: matches.get_one::<u32>("nursery").unwrap_or(usual.nursery),
        workers: matches.get_one::<u32>("workers").unwrap_or(usual.workers),
        ..usual
    }
}
