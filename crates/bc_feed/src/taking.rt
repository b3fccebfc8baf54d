//! The taker takes hints beside the feeder.

ghost use Rattle.std.specs.Prelude.{◌≡◌, ◌≤◌, [], ◌∷◌, ◌++◌, length, IfSome, IfNone};
ghost use mathlib.Core.List.{IsPrefix};
ghost use Rattle.bc_feed.specs.Ends.{known_of, channel_id, taken_of, taker_channel, taker_most};

use crate::ends::{Channel, Taker};
use crate::rule::Gets;
use std::sync::Wait;

impl Taker {
    /// The next hint, where there is one. Where there is none, all hints are taken that were handed in before the ends were parted.
    ///
    /// It takes no memory and doesn't wait for a hint to come. Where the feeder is between the two steps of a push it waits for that push.
    pub fn take<W: Wait>(&mut self, wait: &W, channel: &Channel) -> Option<u32>
        requires of { taker_channel self.old ≡ channel_id channel.now }
        ensures same { (taker_channel self.new ≡ taker_channel self.old) × (taker_most self.new ≡ taker_most self.old) × (known_of self.new ≡ known_of self.old) }
        ensures some { IfSome result (λ hint. taken_of self.new ≡ taken_of self.old ++ hint ∷ []) }
        ensures none { IfNone result ((taken_of self.new ≡ taken_of self.old) × IsPrefix (known_of self.old) (taken_of self.old)) }
    {
        let hint = channel.queue.pop_as::<Gets, W>(wait, &mut self.pass)?;
        self.taken.push_reserved(hint);
        Some(hint)
    }

    /// The hints that were taken, in order.
    pub fn taken(&self) -> &[u32]
        ensures taken { result.now ≡ taken_of self.now }
        ensures few { length (taken_of self.now) ≤ taker_most self.now }
    {
        self.taken.as_slice()
    }
}
