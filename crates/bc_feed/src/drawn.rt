//! Hints that are drawn.

ghost use Rattle.std.specs.Prelude.{◌≡◌};
ghost use Rattle.bc_feed.specs.Drawn.{hints_from};

use crate::feed::Feed;
use bc_churn::Generator;
use std::marker::Model;

/// How many pages the largest heap has: the hints that are drawn lie below it.
const PAGES: u32 = 16_384;

/// A feed of drawn hints. Contracts see it as the hints that are still to come.
#[derive(Drop)]
pub struct DrawFeed {
    generator: Generator,
    /// How many are still to come.
    left: u32,
}

impl Model for DrawFeed {
    ghost use Rattle.std.specs.Prelude.{ℕ, List};
    ghost use Rattle.bc_feed.specs.Drawn.{hints_from};

    ghost Value = { List ℕ };

    ghost view = { λ f. hints_from f.generator f.left };
}

impl DrawFeed {
    /// `count` hints, page numbers below 16384, as the generator of the churn draws them from `start` on. It takes no memory.
    pub fn new(start: u64, count: u32) -> DrawFeed
        ensures new { result ≡ hints_from start count }
    {
        DrawFeed {
            generator: Generator::new(start),
            left: count,
        }
    }
}

impl Feed for DrawFeed {
    ghost coming = { λ f. f };

    fn next(&mut self) -> Option<u32> {
        if self.left == 0 {
            return None;
        }
        self.left -= 1;
        Some(self.generator.draw(PAGES))
    }
}
