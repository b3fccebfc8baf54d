//! The rule of a table, and what each kind of step says. These types are for the proofs alone.

use crate::key::About;
use crate::views::{Lodged, View};
use atomic_table::{Join, Play, Split, TableRule};

/// The turn facts, the claims of notices, and what is owed of gray cells.
pub struct TurnRule;

impl TableRule<Lodged, View, About> for TurnRule {
    ghost use Rattle.bc_pins.specs.Rule.{Ruled};
    ghost use Rattle.bc_pins.specs.Steps.{fresh};

    ghost holds = { Ruled };

    ghost first = { λ k. fresh k k.roles };
}

/// A page is taken from Home, or from Home and remembered.
pub struct Take;

impl Play<Lodged, View> for Take {
    ghost use Rattle.bc_pins.specs.Steps.{Took};

    ghost then = { Took };
}

/// A page is put back.
pub struct Release;

impl Play<Lodged, View> for Release {
    ghost use Rattle.bc_pins.specs.Steps.{Gave};

    ghost then = { λ st m _ n. Gave st m n };
}

/// Bits of a bookmark word are set.
pub struct BookmarkBit;

impl Play<Lodged, View> for BookmarkBit {
    ghost use Rattle.bc_pins.specs.Steps.{SetBits};

    ghost then = { SetBits };
}

/// A superpage is counted.
pub struct CounterAdd;

impl Play<Lodged, View> for CounterAdd {
    ghost use Rattle.bc_pins.specs.Steps.{Counted};

    ghost then = { Counted };
}

/// Bits of a mark word are set.
pub struct Shade;

impl Play<Lodged, View> for Shade {
    ghost use Rattle.bc_pins.specs.Steps.{Shaded};

    ghost then = { Shaded };
}

/// A mark word is read.
pub struct SeeMarks;

impl Play<Lodged, View> for SeeMarks {
    ghost use Rattle.bc_pins.specs.Steps.{SawMarks};

    ghost then = { SawMarks };
}

/// Cells are finished.
pub struct Finish;

impl Play<Lodged, View> for Finish {
    ghost use Rattle.bc_pins.specs.Steps.{Finished};

    ghost then = { Finished };
}

/// A finished word is read.
pub struct SeeFinished;

impl Play<Lodged, View> for SeeFinished {
    ghost use Rattle.bc_pins.specs.Steps.{SawFinished};

    ghost then = { SawFinished };
}

/// A page's queue bit is set.
pub struct QueueBit;

impl Play<Lodged, View> for QueueBit {
    ghost use Rattle.bc_pins.specs.Steps.{Queued};

    ghost then = { Queued };
}

/// A page's queue bit is cleared.
pub struct DequeueBit;

impl Play<Lodged, View> for DequeueBit {
    ghost use Rattle.bc_pins.specs.Steps.{Dequeued};

    ghost then = { Dequeued };
}

/// A queue word is read.
pub struct SeeQueue;

impl Play<Lodged, View> for SeeQueue {
    ghost use Rattle.bc_pins.specs.Steps.{SawQueue};

    ghost then = { SawQueue };
}

/// A queue word is read by a seat that has paid what it owes.
pub struct SettlePages;

impl Play<Lodged, View> for SettlePages {
    ghost use Rattle.bc_pins.specs.Steps.{SettledPages};

    ghost then = { SettledPages };
}

/// Rights to frames are given up.
pub struct FrameGive;

impl Play<Lodged, View> for FrameGive {
    ghost use Rattle.bc_pins.specs.Steps.{GaveFrames};

    ghost then = { GaveFrames };
}

/// A page is made Gone.
pub struct MakeGone;

impl Play<Lodged, View> for MakeGone {
    ghost use Rattle.bc_pins.specs.Steps.{Left};

    ghost then = { λ st m _ n. Left st m n };
}

/// A page is made Absent.
pub struct MakeAbsent;

impl Play<Lodged, View> for MakeAbsent {
    ghost use Rattle.bc_pins.specs.Steps.{Vacated};

    ghost then = { λ st m _ n. Vacated st m n };
}

/// A page is taken from Gone, by the lane that holds its domain or by any where that is frozen.
pub struct TakeGone;

impl Play<Lodged, View> for TakeGone {
    ghost use Rattle.bc_pins.specs.Steps.{Fetched};

    ghost then = { Fetched };
}

/// A superpage is counted no more.
pub struct CounterSub;

impl Play<Lodged, View> for CounterSub {
    ghost use Rattle.bc_pins.specs.Steps.{Discounted};

    ghost then = { Discounted };
}

/// All free frames of a frame word are claimed.
pub struct FrameClaim;

impl Play<Lodged, View> for FrameClaim {
    ghost use Rattle.bc_pins.specs.Steps.{Claimed};

    ghost then = { Claimed };
}

/// The number of the next notice is claimed.
pub struct ClaimNotice;

impl Play<Lodged, View> for ClaimNotice {
    ghost use Rattle.bc_pins.specs.Steps.{TookNotice};

    ghost then = { TookNotice };
}

/// A page's word is read.
pub struct Look;

impl Play<Lodged, View> for Look {
    ghost use Rattle.bc_pins.specs.Steps.{Looked};

    ghost then = { Looked };
}

/// A seat gives its first role to a new one.
pub struct Deal;

impl Split<View> for Deal {
    ghost use Rattle.bc_pins.specs.Steps.{dealer, dealt};

    ghost left = { dealer };

    ghost right = { dealt };
}

/// A seat is joined into another.
pub struct Unite;

impl Join<View> for Unite {
    ghost use Rattle.bc_pins.specs.Steps.{nobody, united};

    ghost both = { united };

    ghost spent = { nobody };
}
