//! Words, and what is done for them.

use crate::equal::same;
use crate::shown::shows;
use bc_cli::{OpenGate, Status};
use bc_io::MemSource;
use program_workshop::{FIRST_PHASE, FIRST_PRINTED, Paper, SMALL, run_between, trace};
use std::alloc::{AllocError, Global};
use std::process::Abort;
use std::test::Fail;
use std::thread::Threads;

/// The counts of `churn 1 20000`, in the order in which they are printed.
const COUNTS: [u64; 11] = [6666, 4355, 927, 50, 21, 699, 87, 455, 2092, 1336, 23_952];

/// Shows that these words are no command: nothing is read of a source of which every read fails, and nothing is written.
fn shows_bad_words<R: Threads + Sync + Abort>(
    rt: &R,
    alloc: Global,
    words: &[&str],
) -> Result<(), AllocError> {
    let mut source = MemSource::new(Vec::new(alloc), 4096, vec![in alloc; 1]?);
    let mut sink = Paper::new(alloc);
    let outcome = run_between(rt, alloc, words, &mut source, &mut sink, &OpenGate);
    same(rt, outcome.status, Status::BadWords);
    assert!(rt; outcome.heap.is_none());
    assert!(rt; sink.into_bytes().is_empty());
    Ok(())
}

#[test]
fn words_that_are_no_command_are_refused_and_nothing_is_read(rt: HostRuntime) -> Result<(), Fail> {
    let alloc = rt.alloc();
    shows_bad_words(&rt, alloc, &[])?;
    shows_bad_words(&rt, alloc, &["walk"])?;
    shows_bad_words(&rt, alloc, &["run", "--", "x"])?;
    shows_bad_words(&rt, alloc, &["run", "--workers", "0"])?;
    shows_bad_words(&rt, alloc, &["run", "--workers", "17"])?;
    shows_bad_words(&rt, alloc, &["run", "--workers", "1", "--workers", "1"])?;
    shows_bad_words(&rt, alloc, &["churn", "7"])?;
    shows_bad_words(&rt, alloc, &["churn", "7", "00"])?;
    shows_bad_words(&rt, alloc, &["churn", "7", "100001"])?;
    Ok(())
}

#[test]
fn run_prints_the_same_with_any_number_of_workers(rt: HostRuntime) -> Result<(), Fail> {
    shows_first_path(&rt, rt.alloc(), &["run", "--workers", "2"])?;
    shows_first_path(&rt, rt.alloc(), &["run", "--workers=2"])?;
    shows_first_path(&rt, rt.alloc(), &["run", "--workers=16", "--"])?;
    Ok(())
}

/// Shows what these words print over `FIRST_PHASE`.
fn shows_first_path<R: Threads + Sync + Abort>(
    rt: &R,
    alloc: Global,
    words: &[&str],
) -> Result<(), AllocError> {
    let input = trace(alloc, SMALL, FIRST_PHASE)?.into_bytes();
    shows(rt, alloc, words, input, (Status::Done, true), FIRST_PRINTED);
    Ok(())
}

/// Shows what `churn` with these words prints.
fn shows_churn<R: Threads + Sync + Abort>(rt: &R, alloc: Global, words: &[&str], output: &str) {
    let end = (Status::Done, true);
    shows(rt, alloc, words, Vec::new(alloc), end, output);
}

#[test]
fn churn_takes_two_hyphens_and_workers_among_its_numbers(rt: HostRuntime) -> Result<(), Fail> {
    let alloc = rt.alloc();
    let output =
        "churn 7 0\nobj 0\nok 0\nnil 0\nnum 0\nref 0\nlen 0\nyes 0\nno 0\nnotobj 0\nrange 0\nforeign 0\ndone\n";
    shows_churn(&rt, alloc, &["churn", "7", "0"], output);
    shows_churn(&rt, alloc, &["churn", "--", "7", "0"], output);
    shows_churn(&rt, alloc, &["churn", "7", "--workers", "3", "0"], output);
    Ok(())
}

/// What `churn 1 20000` prints.
fn counted(alloc: Global) -> Result<String, AllocError> {
    let [
        obj,
        ok,
        nil,
        num,
        link,
        len,
        yes,
        no,
        not_object,
        range,
        foreign,
    ] = COUNTS;
    format!(in alloc;
        "churn 1 20000\nobj {obj}\nok {ok}\nnil {nil}\nnum {num}\nref {link}\nlen {len}\nyes {yes}\nno {no}\nnotobj {not_object}\nrange {range}\nforeign {foreign}\ndone\n"
    )
}

#[test]
fn the_counts_of_churn_1_20000_add_up_to_40640_with_any_number_of_workers(
    rt: HostRuntime,
) -> Result<(), Fail> {
    let alloc = rt.alloc();
    let mut sum: u64 = 0;
    for count in COUNTS {
        sum = count.saturating_add(sum);
    }
    same(&rt, sum, 40_640);
    let output = counted(alloc)?;
    shows_churn(&rt, alloc, &["churn", "1", "20000"], &output);
    shows_churn(
        &rt,
        alloc,
        &["churn", "1", "20000", "--workers", "1"],
        &output,
    );
    shows_churn(
        &rt,
        alloc,
        &["churn", "1", "20000", "--workers", "16"],
        &output,
    );
    Ok(())
}
