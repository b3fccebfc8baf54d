//! Frames, and the pool that claims and gives them.

ghost use Rattle.std.specs.Prelude.{◌≡◌, ℕ, ◌+◌, ◌*◌, ◌/◌, ◌%◌, ◌^◌, ◌<◌, ◌≤◌, ◌≢◌, ◌==◌, Bool, true, false, not, List, [], length, slice_set, replicate, IfOk, IfSome, IfNone, nat_lt};
ghost use Rattle.std.specs.Int.{bit_at};
ghost use Rattle.bc_bits.specs.Bits.{has};
ghost use Rattle.bc_bits.specs.Counting.{one_if};
ghost use Rattle.bc_frames.specs.Pool.{is_free, free_count};

use std::alloc::{AllocError, Global};
use std::marker::Model;

/// The right to one frame of memory. It can't be copied. It remembers whether what lies in the frame was used lately, which the model
/// doesn't see.
#[derive(Drop)]
pub struct Frame {
    number: u32,
    used: bool,
}

impl Model for Frame {
    ghost use Rattle.std.specs.Prelude.{ℕ};

    ghost Value = { ℕ };

    ghost view = { λ f. f.number };
}

impl Frame {
    /// The frame's number.
    pub fn number(&self) -> u32
        ensures number { result ≡ self.now }
    {
        self.number
    }

    /// The right to the frame of this number. Who makes it keeps that no other right to this frame is in use.
    pub fn of(number: u32) -> Self
        ensures number { result ≡ number }
    {
        Frame {
            number,
            used: false,
        }
    }

    /// Notes that what lies in the frame was used. No contract sees it.
    pub fn note_use(&mut self)
        ensures same { self.new ≡ self.old }
    {
        self.used = true;
    }

    /// Was what lies in the frame used since this was asked last? No contract sees it.
    pub fn take_use(&mut self) -> bool
        ensures same { self.new ≡ self.old }
    {
        let used = self.used;
        self.used = false;
        used
    }
}

/// The frames that nobody uses.
#[derive(Drop)]
pub struct FramePool {
    /// A bit for each frame, by its number: set where the frame isn't free, and after the last one.
    words: Vec<u64>,
    /// How many frames there are.
    frames: u32,
    /// How many of them are free.
    free: u32,
    /// No word before this one has a free frame.
    first: u32,
}

impl Model for FramePool {
    ghost use Rattle.std.specs.Prelude.{Bool, List};
    ghost use Rattle.bc_frames.specs.FrameBits.{flags_in, HasFrameBits};

    ghost Value = { List Bool };

    ghost view = { λ p. flags_in p.words.items p.frames };

    ghost invariant = { λ p. HasFrameBits p.words.items p.frames p.free p.first };
}

impl FramePool {
    /// A pool in which this many frames are free, with the numbers from 0 on.
    pub fn new(alloc: Global, frames: u32) -> Result<Self, AllocError>
        ensures all_free { IfOk result (λ pool. pool ≡ replicate frames true) }
    {
        let count = (frames as usize + 63) / 64;
        let mut words = vec![in alloc; 0; count]?;
        if count > 0 {
            words[count - 1] = bits_behind(frames, count as u32 - 1);
        }
        Ok(FramePool {
            words,
            frames,
            free: frames,
            first: 0,
        })
    }

    /// A pool of no frames. It takes no memory.
    pub fn empty(alloc: Global) -> Self
        ensures none { result ≡ [] }
    {
        FramePool {
            words: Vec::new(alloc),
            frames: 0,
            free: 0,
            first: 0,
        }
    }

    /// A frame that was free and no longer is, or nothing where no frame is free.
    pub fn claim(&mut self) -> Option<Frame>
        ensures none { IfNone result ((n : ℕ) → is_free self.old n ≡ false) }
        ensures same { IfNone result (self.new ≡ self.old) }
        ensures free { IfSome result (λ frame. is_free self.old frame ≡ true) }
        ensures claimed { IfSome result (λ frame. self.new ≡ slice_set self.old frame false) }
    {
        let number = first_clear(self.words.as_slice(), self.first)?;
        self.first = number / 64;
        self.occupy(number);
        Some(Frame {
            number,
            used: false,
        })
    }

    /// Makes a frame free, which is not free and is one of this pool's.
    pub fn give(&mut self, frame: Frame)
        requires below { frame < length self.old }
        requires taken { is_free self.old frame ≡ false }
        ensures given { self.new ≡ slice_set self.old frame true }
    {
        let Frame { number, used: _ } = frame;
        self.release(number);
    }

    /// Makes the frame of this number free, or not free. Who takes a free frame so keeps that it is given back once.
    pub fn set_free(&mut self, number: u32, free: bool)
        requires below { number < length self.old }
        ensures set { self.new ≡ slice_set self.old number free }
    {
        if self.is_free(number) == free {
            return;
        }
        if free {
            self.release(number);
        } else {
            self.occupy(number);
        }
    }

    /// Sets the bit of a free frame.
    #[tactic(auto, unfolding(bc_bits::specs::BitChanges::with_bit))]
    fn occupy(&mut self, number: u32)
        requires free { is_free self.old number ≡ true }
        ensures taken { self.new ≡ slice_set self.old number false }
    {
        let word = (number / 64) as usize;
        self.words[word] |= 1 << (number % 64);
        self.free -= 1;
    }

    /// Clears the bit of a frame that isn't free.
    #[tactic(auto, unfolding(bc_bits::specs::BitChanges::without_bit))]
    fn release(&mut self, number: u32)
        requires below { number < length self.old }
        requires taken { is_free self.old number ≡ false }
        ensures given { self.new ≡ slice_set self.old number true }
    {
        let word = (number / 64) as usize;
        self.words[word] &= !(1 << (number % 64));
        self.free += 1;
        self.first = self.first.min(number / 64);
    }

    /// Is the frame of this number free? One that the pool doesn't have is not.
    pub fn is_free(&self, number: u32) -> bool
        ensures free { result ≡ is_free self.now number }
    {
        number < self.frames && self.words[(number / 64) as usize] & (1 << (number % 64)) == 0
    }

    /// The bits of 64 frames, from 64 times this number on: set where a frame isn't free, and where the pool doesn't
    /// have one.
    pub fn word(&self, word: u32) -> u64
        ensures bits { (b : ℕ) → b < 64 → bit_at result b ≡ one_if (not (is_free self.now (64 * word + b))) }
    {
        if (word as usize) < self.words.len() {
            self.words[word as usize]
        } else {
            u64::MAX
        }
    }

    /// Sets which of 64 frames are free, from 64 times this number on: those whose bits are clear. Others stay as they are.
    pub fn put_word(&mut self, word: u32, bits: u64)
        ensures long { length self.new ≡ length self.old }
        ensures here { (f : ℕ) → f / 64 ≡ word → f < length self.old → is_free self.new f ≡ (bit_at bits (f % 64) == 0) }
        ensures others { (f : ℕ) → f / 64 ≢ word → is_free self.new f ≡ is_free self.old f }
    {
        if (word as usize) < self.words.len() {
            let was = self.words[word as usize];
            let now = bits | bits_behind(self.frames, word);
            self.words[word as usize] = now;
            let free = self.free as u64 + was.count_ones() as u64 - now.count_ones() as u64;
            self.free = free as u32;
            self.first = self.first.min(word);
        }
    }

    /// How many frames there are, free or not.
    pub fn frames(&self) -> u32
        ensures count { result ≡ length self.now }
    {
        self.frames
    }

    /// How many frames are free.
    pub fn free(&self) -> u32
        ensures count { result ≡ free_count self.now }
    {
        self.free
    }
}

/// The bits of a word for which there is no frame, where there are so many frames.
fn bits_behind(frames: u32, word: u32) -> u64
    ensures bits { (b : ℕ) → b < 64 → bit_at result b ≡ one_if (not (nat_lt (64 * word + b) frames)) }
{
    let before = word as u64 * 64;
    let here = (frames as u64).saturating_sub(before);
    if here < 64 { u64::MAX << here } else { 0 }
}

/// The first frame whose bit is clear, in this word or a later one.
fn first_clear(words: &[u64], from: u32) -> Option<u32>
    requires few { length words.now ≤ 2 ^ 26 }
    ensures clear { IfSome result (λ f. has words.now f ≡ false) }
    ensures below { IfSome result (λ f. f < 64 * length words.now) }
    ensures first { IfSome result (λ f. (i : ℕ) → 64 * from ≤ i → i < f → has words.now i ≡ true) }
    ensures none { IfNone result ((i : ℕ) → 64 * from ≤ i → i < 64 * length words.now → has words.now i ≡ true) }
{
    for word in from as usize..words.len() {
        let bits = words[word];
        if bits != u64::MAX {
            return Some(64 * word as u32 + bits.trailing_ones());
        }
    }
    None
}
