//! Lists of words, and the commands that they are.

use bc_words::{Command, command_of};
use std::alloc::{AllocError, Global};
use std::process::Abort;
use std::test::Fail;

/// Shows that each of these lists of words is the command beside it.
fn are(rt: &impl Abort, alloc: Global, lists: &[(&[&str], Command)]) -> Result<(), AllocError> {
    for (number, (words, command)) in lists.iter().enumerate() {
        let found = command_of(alloc, words)?;
        assert!(rt; found == Some(*command), "list {number}");
    }
    Ok(())
}

/// Shows that none of these lists of words is a command.
fn are_none(rt: &impl Abort, alloc: Global, lists: &[&[&str]]) -> Result<(), AllocError> {
    for (number, words) in lists.iter().enumerate() {
        assert!(rt; command_of(alloc, words)?.is_none(), "list {number}");
    }
    Ok(())
}

#[test]
fn run_has_one_worker_or_those_that_are_given(rt: HostRuntime) -> Result<(), Fail> {
    let lists: [(&[&str], Command); 3] = [
        (&["run"], Command::Run { workers: 1 }),
        (&["run", "--workers=2"], Command::Run { workers: 2 }),
        (
            &["run", "--workers", "16", "--"],
            Command::Run { workers: 16 },
        ),
    ];
    are(&rt, rt.alloc(), &lists)?;
    Ok(())
}

#[test]
fn churn_takes_its_workers_before_between_and_behind_its_numbers(
    rt: HostRuntime,
) -> Result<(), Fail> {
    let command = Command::Churn {
        start: 7,
        ops: 0,
        workers: 3,
    };
    let lists: [(&[&str], Command); 3] = [
        (&["churn", "--workers=3", "7", "0"], command),
        (&["churn", "7", "--workers", "3", "0"], command),
        (&["churn", "7", "0", "--workers", "3"], command),
    ];
    are(&rt, rt.alloc(), &lists)?;
    Ok(())
}

#[test]
fn churn_takes_the_greatest_numbers_and_none_above(rt: HostRuntime) -> Result<(), Fail> {
    let greatest = Command::Churn {
        start: 9_223_372_036_854_775_807,
        ops: 100_000,
        workers: 1,
    };
    let lists: [(&[&str], Command); 1] = [(&["churn", "9223372036854775807", "100000"], greatest)];
    are(&rt, rt.alloc(), &lists)?;
    let lists: [&[&str]; 2] = [
        &["churn", "9223372036854775808", "0"],
        &["churn", "7", "100001"],
    ];
    are_none(&rt, rt.alloc(), &lists)?;
    Ok(())
}

#[test]
fn save_takes_one_number_and_resume_none(rt: HostRuntime) -> Result<(), Fail> {
    let greatest = Command::Save {
        phases: 9_223_372_036_854_775_807,
        workers: 16,
    };
    let lists: [(&[&str], Command); 6] = [
        (
            &["save", "0"],
            Command::Save {
                phases: 0,
                workers: 1,
            },
        ),
        (
            &["save", "--workers", "16", "9223372036854775807"],
            greatest,
        ),
        (
            &["save", "12", "--workers=2"],
            Command::Save {
                phases: 12,
                workers: 2,
            },
        ),
        (
            &["save", "--", "1"],
            Command::Save {
                phases: 1,
                workers: 1,
            },
        ),
        (&["resume"], Command::Resume { workers: 1 }),
        (
            &["resume", "--workers", "7", "--"],
            Command::Resume { workers: 7 },
        ),
    ];
    are(&rt, rt.alloc(), &lists)?;
    let lists: [&[&str]; 8] = [
        &["save"],
        &["save", "1", "1"],
        &["save", "9223372036854775808"],
        &["save", "01"],
        &["save", "-1"],
        &["save", "1", "--workers", "0"],
        &["resume", "1"],
        &["resume", "--workers=17"],
    ];
    are_none(&rt, rt.alloc(), &lists)?;
    Ok(())
}

#[test]
fn two_hyphens_are_passed_over_once(rt: HostRuntime) -> Result<(), Fail> {
    let (start, ops) = (7, 0);
    let lists: [(&[&str], Command); 2] = [
        (
            &["churn", "--", "7", "0"],
            Command::Churn {
                start,
                ops,
                workers: 1,
            },
        ),
        (
            &["churn", "7", "--workers", "2", "--", "0"],
            Command::Churn {
                start,
                ops,
                workers: 2,
            },
        ),
    ];
    are(&rt, rt.alloc(), &lists)?;
    let lists: [&[&str]; 4] = [
        &["churn", "7", "0", "--", "--"],
        &["churn", "--", "7", "-0"],
        &["run", "--", "x"],
        &["run", "--", "--workers=2"],
    ];
    are_none(&rt, rt.alloc(), &lists)?;
    Ok(())
}

#[test]
fn workers_are_given_once_and_are_from_1_to_16(rt: HostRuntime) -> Result<(), Fail> {
    let lists: [&[&str]; 6] = [
        &["run", "--workers", "1", "--workers", "1"],
        &["run", "--workers", "17"],
        &["run", "--workers", "0"],
        &["run", "--workers"],
        &["run", "--workers="],
        &["run", "--workers", "--", "2"],
    ];
    are_none(&rt, rt.alloc(), &lists)?;
    Ok(())
}

#[test]
fn a_number_has_no_sign_no_space_and_no_leading_zero(rt: HostRuntime) -> Result<(), Fail> {
    let lists: [&[&str]; 5] = [
        &["churn", "7", "00"],
        &["churn", "+7", "0"],
        &["churn", " 7", "0"],
        &["churn", "-", "0"],
        &["churn", "", "0"],
    ];
    are_none(&rt, rt.alloc(), &lists)?;
    Ok(())
}

#[test]
fn other_words_are_no_command(rt: HostRuntime) -> Result<(), Fail> {
    let lists: [&[&str]; 7] = [
        &[],
        &["walk"],
        &["--workers=2", "run"],
        &["run", "--help"],
        &["run", "-V"],
        &["churn", "7"],
        &["churn", "7", "0", "0"],
    ];
    are_none(&rt, rt.alloc(), &lists)?;
    Ok(())
}
