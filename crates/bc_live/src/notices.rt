//! Notices out of the queue that a feeder hands hints in through.

ghost use Rattle.std.specs.Prelude.{◌≡◌, ℕ, ◌≤◌, [], ◌∷◌, length, Option, Some, IfSome, IfNone, IsNone, false, nat_lt};
ghost use mathlib.Core.List.{IsPrefix};
ghost use Rattle.atomic_table.specs.Seated.{TableId};
ghost use Rattle.bc_feed.specs.Ends.{channel_id, known_of, taken_of, taker_channel, taker_most};
ghost use Rattle.bc_frames.specs.Places.{one_more};
ghost use Rattle.bc_pager.specs.Claiming.{ClaimsNotice, IsSeatOf, unshared};
ghost use Rattle.bc_pager.specs.Serving.{numbered, told_with, untold};
ghost use Rattle.bc_pins.specs.Calls.{slots_of, view_of, IsSameSeat};
ghost use Rattle.bc_live.specs.Queues.{unhinted, unnamed};

use bc_feed::{Channel, Taker};
use bc_pager::{Notice, Notices};
use bc_pins::Seat;
use std::marker::{Brand, Model, PhantomData};
use std::sync::Wait;

/// Which channel the notices of a run come through. It is for the proofs alone: a run keeps the channel that it was given.
pub trait ChannelName {
    ghost channel: { Option TableId };
}

impl ChannelName for Brand {
    ghost channel = { unnamed };
}

/// Notices out of a queue: each hint that is taken, numbered in the order in which they are taken. Contracts see the end that takes them.
#[derive(Drop)]
pub struct QueueNotices<'a, W, C: ChannelName> {
    wait: &'a W,
    channel: &'a Channel,
    taker: Taker,
    /// How many hints are handed in at most.
    most: u32,
    /// How many calls answered that there is none.
    ends: u64,
    named: PhantomData<C>,
}

impl<'a, W, C: ChannelName> Model for QueueNotices<'a, W, C> {
    ghost use Rattle.std.specs.Prelude.{◌≡◌, Some};
    ghost use Rattle.bc_feed.specs.Ends.{channel_id, taker_channel, taker_most};
    ghost use Rattle.bc_live.specs.Queues.{QueueView};

    ghost Value = { QueueView };

    ghost view = { λ n. record { taker = n.taker; most = n.most; ends = n.ends } };

    ghost invariant = { λ n. (taker_channel n.taker ≡ channel_id n.channel.now) × (Some (taker_channel n.taker) ≡ C.channel) × (n.most ≡ taker_most n.taker) };
}

impl<'a, W, C: ChannelName> QueueNotices<'a, W, C> {
    /// Notices of the hints that this end takes, of which there are so many at most. No call answered yet that there is none.
    pub(crate) fn new(
        wait: &'a W,
        channel: &'a Channel,
        taker: Taker,
        most: u32,
    ) -> QueueNotices<'a, W, C>
        requires of { taker_channel taker ≡ channel_id channel.now }
        requires named { Some (channel_id channel.now) ≡ C.channel }
        requires most { most ≡ taker_most taker }
        ensures new { result ≡ record { taker = taker; most = most; ends = 0 } }
    {
        QueueNotices {
            wait,
            channel,
            taker,
            most,
            ends: 0,
            named: PhantomData,
        }
    }

    /// The end that takes hints. It is of the same channel as at first.
    pub(crate) fn into_taker(self) -> Taker
        ensures taker { result ≡ self.entry.taker }
        ensures named { Some (taker_channel result) ≡ C.channel }
    {
        self.taker
    }
}

impl<'a, W: Wait, C: ChannelName> Notices for QueueNotices<'a, W, C> {
    ghost taken = { λ n. Some (numbered 0 (taken_of n.taker)) };

    ghost ends = { λ n. n.ends };

    // Which hints come isn't known before they do.
    ghost told = { λ n. unhinted };

    ghost since = { λ n. untold };

    ghost shared = { λ n. unshared };

    ghost coming = { λ n. nat_lt (length (taken_of n.taker)) n.most };

    ghost most = { λ n. n.most };

    /// The next notice, where the queue has a hint. It doesn't wait for one to come.
    fn next(&mut self, _seat: &mut Seat) -> Option<Notice>
        ensures some { IfSome result (λ notice. (Some (numbered 0 (taken_of self.new.taker)) ≡ told_with (Some (numbered 0 (taken_of self.old.taker))) (notice ∷ [])) × (self.new.ends ≡ self.old.ends) × (untold ≡ told_with untold (view_of _seat.new ∷ []))) }
        ensures none { IfNone result ((Some (numbered 0 (taken_of self.new.taker)) ≡ Some (numbered 0 (taken_of self.old.taker))) × (self.new.ends ≡ one_more self.old.ends) × (untold ≡ untold)) }
        ensures claim { ClaimsNotice unshared result (view_of _seat.old) (view_of _seat.new) }
        ensures told { unhinted ≡ unhinted }
        ensures shared { unshared ≡ unshared }
        ensures same { IsSameSeat _seat.old _seat.new }
        ensures slots { slots_of _seat.new ≡ slots_of _seat.old }
        ensures last { nat_lt (length (taken_of self.old.taker)) self.old.most ≡ false → IsNone result }
        ensures most { self.new.most ≡ self.old.most }

        // What was handed in before the run began stays known. Where there is none, all of it is taken.
        ensures known { known_of self.new.taker ≡ known_of self.old.taker }
        ensures empty { IfNone result (IsPrefix (known_of self.old.taker) (taken_of self.old.taker)) }
    {
        let Some(hint) = self.taker.take(self.wait, self.channel) else {
            self.ends = self.ends.saturating_add(1);
            return None;
        };
        let number = (self.taker.taken().len() - 1) as u32;
        Some(Notice { hint, number })
    }

    fn may_come(&self) -> bool {
        self.taker.taken().len() < self.most as usize
    }
}
