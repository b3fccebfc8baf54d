//! A feeder beside a run.

ghost use Rattle.std.specs.Prelude.{◌≡◌};
ghost use Rattle.std.specs.Thread.{IsSync};
ghost use Rattle.bc_feed.specs.Ends.{HasHandedIn, feeder_channel, feeder_most, handed_of, channel_id};

use crate::ends::{Channel, Feeder};
use crate::feed::Feed;
use std::sync::Wait;
use std::thread;
use std::thread::Threads;

/// Calls `run` on this thread, and beside it the feeder hands in hints on another, until `run` has returned, as many were handed in as the
/// channel is for, or the feed is empty. The answer is that of `run`.
///
/// `run` may take hints, and must not wait for one: where no thread can be made the feeder comes after it, and hands in none. A channel is
/// for one run: the feeder hands in none once a run has ended.
pub fn feed_beside<R: Threads, W: Wait + Sync, F: Feed + Send, G: FnMut() -> B, B>(
    threads: &R,
    wait: &W,
    channel: &Channel,
    feeder: &mut Feeder,
    feed: &mut F,
    run: &mut G,
) -> B
    requires of { feeder_channel feeder.old ≡ channel_id channel.now }
    requires run { G.pre run.old }
    ensures of { feeder_channel feeder.new ≡ feeder_channel feeder.old }
    ensures most { feeder_most feeder.new ≡ feeder_most feeder.old }
    ensures fed { HasHandedIn (handed_of feeder.old) (F.coming feed.old) (handed_of feeder.new) (F.coming feed.new) }
    ensures ran { G.step run.old result run.new }
{
    thread::join_mut(
        threads,
        &mut ||
            requires { IsSync W.row × (feeder_channel feeder.now ≡ channel_id channel.now) }
            ensures { (feeder_channel feeder.exit.now ≡ feeder_channel feeder.entry.now) × (feeder_most feeder.exit.now ≡ feeder_most feeder.entry.now)
                × HasHandedIn (handed_of feeder.entry.now) (F.coming feed.entry.now) (handed_of feeder.exit.now) (F.coming feed.exit.now) }
        { feeder.hand_in(wait, channel, feed) },
        &mut || -> B
            requires { G.pre run.now }
            ensures { G.step run.entry.now result run.exit.now }
        {
            let answer = run();
            channel.end();
            answer
        },
    )
    .1
}
