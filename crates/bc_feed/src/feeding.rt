//! The feeder hands in hints beside the run.

ghost use Rattle.std.specs.Prelude.{◌≡◌, ◌⊎◌, [], length, IfNone, Some};
ghost use Rattle.bc_feed.specs.Ends.{HasHandedIn, feeder_channel, feeder_most, handed_of, channel_id};

use crate::ends::{Channel, Feeder};
use crate::feed::Feed;
use crate::rule::Sends;
use crossbeam_utils::Backoff;
use std::sync::Wait;
use std::sync::atomic::Ordering::SeqCst;
use std::time::Duration;

/// How long the feeder sleeps at most before it looks whether the queue has a place again, in microseconds.
const LONGEST_SLEEP: u64 = 500;

impl Channel {
    /// Tells the feeder that the run has ended, and wakes it.
    pub(crate) fn end(&self) {
        self.ended.store(true, SeqCst);
        self.parker.unpark();
    }

    /// Lets the taker go on, where the queue has no place yet: by turns of spinning and yielding at first, and then asleep.
    fn rest<W: Wait>(&self, wait: &W, backoff: &Backoff) {
        if backoff.is_completed() {
            self.parker
                .park_timeout(wait, Duration::from_micros(LONGEST_SLEEP));
        } else {
            backoff.snooze();
        }
    }
}

impl Feeder {
    /// Hands in the next hints, in order, until the run has ended, `most` were handed in or the feed is empty. Where the queue has no place
    /// yet it tries again. A hint that had no place yet as the run ended is the last of those that were handed in.
    pub(crate) fn hand_in<W: Wait, F: Feed>(&mut self, wait: &W, channel: &Channel, feed: &mut F)
        requires of { feeder_channel self.old ≡ channel_id channel.now }
        ensures of { feeder_channel self.new ≡ feeder_channel self.old }
        ensures most { feeder_most self.new ≡ feeder_most self.old }
        ensures fed { HasHandedIn (handed_of self.old) (F.coming feed.old) (handed_of self.new) (F.coming feed.new) }
    {
        let backoff = Backoff::new();
        for _ in wait.forever() {
            if channel.ended.load(SeqCst) {
                return;
            }
            let Some(hint) = self.next_hint(feed) else {
                return;
            };
            if self.push(channel, hint) {
                backoff.reset();
            } else {
                channel.rest(wait, &backoff);
            }
        }
    }

    /// The hint that waits for a place: one that waited already, or else the next one of the feed. There is none where `most` were handed
    /// in or the feed is empty.
    fn next_hint<F: Feed>(&mut self, feed: &mut F) -> Option<u32>
        ensures same { (feeder_channel self.new ≡ feeder_channel self.old) × (feeder_most self.new ≡ feeder_most self.old) }
        ensures fed { HasHandedIn (handed_of self.old) (F.coming feed.old) (handed_of self.new) (F.coming feed.new) }
        ensures waits { self.new.waiting ≡ result }
        ensures none { IfNone result ((length (handed_of self.new) ≡ feeder_most self.old) ⊎ (F.coming feed.new ≡ [])) }
    {
        if self.waiting.is_none() && self.handed.len() < self.most {
            if let Some(hint) = feed.next() {
                self.handed.push_reserved(hint);
                self.waiting = Some(hint);
            }
        }
        self.waiting
    }

    /// One try to push the hint that waits.
    fn push(&mut self, channel: &Channel, hint: u32) -> bool
        requires of { feeder_channel self.old ≡ channel_id channel.now }
        requires waits { self.old.waiting ≡ Some hint }
        ensures same { (feeder_channel self.new ≡ feeder_channel self.old) × (feeder_most self.new ≡ feeder_most self.old) }
        ensures handed { handed_of self.new ≡ handed_of self.old }
    {
        let pushed = channel
            .queue
            .try_push_as::<Sends>(&mut self.pass, hint)
            .is_ok();
        self.waiting = if pushed { None } else { Some(hint) };
        pushed
    }
}
