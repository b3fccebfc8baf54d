// How long a bookmark collection takes with several markers: a program for `bench/marking`, and no part of the collector.
//
// It makes a heap that is live from end to end (but for `skewed`), with an empty nursery, and collects it again and again. It prints a line for each way to
// collect it, of words `key=value`, with the objects in cells and the pages that are gone afterwards:
//
//     shape=wide superpages=2 way=tables workers=2 objects=512 gone=0
//
// A heap gets as many objects of seven fields as fill so many superpages. Its shape is a tree of which each object has seven others
// (`wide`); a tree of five, and from each object two references to others drawn at random (`random`); or lists, of which the objects lie
// mixed (`lists` for 64, `list` for one); or a tree of seven that lies on every fourth superpage (`skewed`), so that one worker of four has
// it all in its share. Where `gone` is 1, every second page is evicted before. The ways are `plain`, marks made on one
// thread without a table; `tables`, mark turns at a table whatever they cost; and `paced`, as the collector chooses. What is live stays, so
// each collection finds the same heap. The least time of so many collections goes to standard error, by the clock and by the processor
// time of all threads, in nanoseconds, with the same words before it.
//
// Its arguments are shape, superpages, gone and collections, for as many heaps as there are. It promises nothing: what is proved is that
// every condition of the calls is met.
#![tactic(auto)]

mod building;
mod shapes;
mod timing;

use anyhow::{Context, Result, bail, ensure};
use building::build;
use shapes::{Plan, Shape};
use std::env;
use timing::time_all;

/// The plan that begins at this word.
fn plan_at(words: &[String], index: usize) -> Option<(&str, &str, &str, &str)> {
    let shape = words.get(index)?;
    let superpages = words.get(index.saturating_add(1))?;
    let gone = words.get(index.saturating_add(2))?;
    let runs = words.get(index.saturating_add(3))?;
    Some((
        shape.as_str(),
        superpages.as_str(),
        gone.as_str(),
        runs.as_str(),
    ))
}

fn shape_of(word: &str) -> Result<Shape> {
    match word {
        "wide" => Ok(Shape::Wide),
        "random" => Ok(Shape::Random),
        "lists" => Ok(Shape::Lists),
        "list" => Ok(Shape::List),
        "skewed" => Ok(Shape::Skewed),
        _ => bail!("no such shape"),
    }
}

fn main(rt: HostRuntime) -> Result<()> {
    let mut words = Vec::new(rt.alloc());
    for word in env::args(&rt)?.skip(1) {
        words.push(word)?;
    }
    for heap in 0..words.len() / 4 {
        let (shape, superpages, gone, runs) = plan_at(&words, 4 * heap).context(
            "four words a heap",
        )?;
        let plan = Plan {
            shape: shape_of(shape)?,
            superpages: superpages.parse::<u32>().context("superpages")?,
            gone: gone == "1",
        };
        let runs = runs.parse::<u32>().context("collections")?;
        ensure!(
            plan.superpages >= 1 && plan.superpages <= 2048,
            "no such heap"
        );
        let workshop = build(&rt, &plan)?;
        time_all(&rt, &plan, workshop, runs)?;
    }
    Ok(())
}
