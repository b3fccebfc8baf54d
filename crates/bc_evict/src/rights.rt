//! Rights to frames.

ghost use Rattle.std.specs.Prelude.{◌≡◌, ◌≢◌, ℕ, ◌+◌, ◌*◌, ◌<◌, [], IfSome, IfNone};
ghost use Rattle.std.specs.Int.{bit_at};
ghost use Rattle.bc_pins.specs.declared.views.View.{View};
ghost use Rattle.bc_pins.specs.Key.{frame_words};
ghost use Rattle.bc_pins.specs.Steps.{claiming};
ghost use Rattle.bc_pins.specs.Calls.{key_of, view_of, slots_of, IsAt, IsSameSeat};
ghost use Rattle.bc_evict.specs.Evicting.{HasRight, HasGiven};
ghost use Rattle.bc_evict.specs.Claiming.{all_bits, HasClaimed, FindsNoFrame};

use crate::walking::place_behind;
use bc_frames::Frame;
use bc_pins::{Pins, Role, Seat};

/// The right to a frame that is no page's, of who gave the page up. It can't be copied, and only the calls of this crate make one.
#[derive(Drop)]
pub struct FrameRight {
    pub(crate) frame: Frame,
}

/// Gives a frame back: it is free for whoever claims it. The right is used up.
pub fn give_frame(pins: &Pins, seat: &mut Seat, right: FrameRight)
    requires seat { IsAt pins.now seat.old }
    requires right { HasRight seat.old right }
    ensures same { IsSameSeat seat.old seat.new }
    ensures slots { slots_of seat.new ≡ slots_of seat.old }
    ensures given { HasGiven (view_of seat.old) right.frame (view_of seat.new) }
{
    let number = right.frame.number();
    pins.frame_give(seat, number / 64, 1 << (number % 64));
}

/// Claims a frame that is free, for a seat that has no right. It answers nothing only where each frame word, at the last step of this call
/// on it, had no clear bit. Seats begin at words of their own, so that two lanes seldom step on one word.
pub fn claim_frame(pins: &Pins, seat: &mut Seat) -> Option<FrameRight>
    requires seat { IsAt pins.now seat.old }
    requires none { (view_of seat.old).rights ≡ [] }
    ensures same { IsSameSeat seat.old seat.new }
    ensures slots { slots_of seat.new ≡ slots_of seat.old }
    ensures some { IfSome result (λ right. HasClaimed (view_of seat.old) right.frame (view_of seat.new)) }
    ensures none { IfNone result (FindsNoFrame (view_of seat.old) (view_of seat.new)) }
{
    let words = pins.frame_words();
    let start = first_word(seat.role(), words);
    for steps in 0..words {
        let word = place_behind(start, steps, words);
        let found = pins.frame_claim(seat, word);
        if found != u64::MAX {
            return Some(keep_one(pins, seat, word, found));
        }
    }
    None
}

/// The frame word at which a seat begins to claim, of so many: those of the lanes lie as far apart as words are enough.
fn first_word(role: Role, words: u32) -> u32
    ensures within { 0 < words → result < words }
{
    let number = match role {
        Role::Lane(lane) => lane,
        Role::Marker(marker) => marker,
        Role::Pager(pager) => pager,
    };
    let apart = (words / 64).max(1);
    number % 64 * apart % words.max(1)
}

/// Keeps the first of the frames of a word that were claimed, and gives the others back.
fn keep_one(pins: &Pins, seat: &mut Seat, word: u32, found: u64) -> FrameRight
    requires seat { IsAt pins.now seat.old }
    requires word { word < frame_words (key_of pins.now) }
    requires some { found ≢ all_bits }
    requires within { (b : ℕ) → b < 64 → bit_at found b ≡ 0 → 64 * word + b < (key_of pins.now).frames }
    requires claimed { (v : View) × (v.rights ≡ []) × (view_of seat.old ≡ claiming v word found) }
    ensures same { IsSameSeat seat.old seat.new }
    ensures slots { slots_of seat.new ≡ slots_of seat.old }
    ensures kept { (v : View) → v.rights ≡ [] → view_of seat.old ≡ claiming v word found → HasClaimed v result.frame (view_of seat.new) }
{
    let _frames = pins.frames();
    let kept = found.trailing_ones();
    let others = !(found | 1 << kept);
    if others != 0 {
        pins.frame_give(seat, word, others);
    }
    FrameRight {
        frame: Frame::of(64 * word + kept),
    }
}
