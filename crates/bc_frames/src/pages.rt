//! One page: 512 words.

ghost use Rattle.std.specs.Prelude.{◌≡◌, ℕ, ◌+◌, ◌-◌, ◌<◌, ◌≤◌, ◌++◌, List, length, slice_index, slice_set, take, drop, replicate};

use crate::shutting::Shut;
use std::marker::Model;

/// The box of one page: 512 words, a part of a row.
#[derive(Drop)]
pub struct Page {
    words: &'static mut [u64; 512],
}

impl Model for Page {
    ghost use Rattle.std.specs.Prelude.{◌≡◌, ℕ, List, length};

    ghost Value = { List ℕ };

    ghost view = { λ p. p.words.now };

    ghost invariant = { λ p. length p.words.now ≡ 512 };
}

impl Page {
    /// The page of these words.
    pub(crate) fn of(words: &'static mut [u64; 512]) -> Self
        ensures words { result ≡ words.old }
        ensures long { length words.old ≡ 512 }
    {
        Page { words }
    }

    /// The word at a place, which is below 512.
    pub fn get(&self, at: u32) -> u64
        requires { at < 512 }
        ensures word { result ≡ slice_index self.now at }
        ensures long { length self.now ≡ 512 }
    {
        word_at(self.words, at as usize)
    }

    /// The words from a place on and before another.
    pub fn part(&self, from: u32, end: u32) -> &[u64]
        requires from { from ≤ end }
        requires end { end ≤ 512 }
        ensures words { result.now ≡ take (end - from) (drop from self.now) }
        ensures long { length self.now ≡ 512 }
    {
        part_of(self.words, from as usize, end as usize)
    }

    /// Writes one word at a place, which is below 512.
    pub fn set(&mut self, at: u32, word: u64)
        requires { at < 512 }
        ensures written { self.new ≡ slice_set self.old at word }
        ensures long { length self.old ≡ 512 }
    {
        self.words[at as usize] = word;
    }

    /// Writes words one after another from a place on. They end on this page.
    pub fn write(&mut self, at: u32, words: &[u64])
        requires { at + length words.now ≤ 512 }
        ensures written { self.new ≡ take at self.old ++ (words.now ++ drop (at + length words.now) self.old) }
        ensures long { length self.old ≡ 512 }
    {
        write_at(self.words, at as usize, words);
    }

    /// Makes every word 0.
    pub fn clear(&mut self)
        ensures zeros { self.new ≡ replicate 512 0 }
    {
        *self.words = [0; 512];
    }

    /// Shuts the box.
    pub fn shut(self) -> Shut
        ensures content { result ≡ self.entry }
    {
        Shut::of(self)
    }
}

/// The word at a place.
fn word_at(words: &[u64], at: usize) -> u64
    requires { at < length words.now }
    ensures word { result ≡ slice_index words.now at }
{
    words[at]
}

/// The words from a place on and before another.
fn part_of(words: &[u64], from: usize, end: usize) -> &[u64]
    requires from { from ≤ end }
    requires end { end ≤ length words.now }
    ensures words { result.now ≡ take (end - from) (drop from words.now) }
{
    &words[from..end]
}

/// Writes words one after another from a place on.
fn write_at(all: &mut [u64], from: usize, words: &[u64])
    requires { from + length words.now ≤ length all.old }
    ensures written { all.new ≡ take from all.old ++ (words.now ++ drop (from + length words.now) all.old) }
{
    all[from..from + words.len()].copy_from_slice(words);
}
