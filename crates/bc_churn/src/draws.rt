//! The generator of `churn`: numbers, and the operations that they stand for.
ghost use Rattle.std.specs.Prelude.{◌≡◌, ◌<◌};
ghost use Rattle.bc_churn.specs.Draws.{draw, drawn_op, drawn_slot, next_number, number_after, number_after_op, verb_of_kind};
ghost use Rattle.bc_churn.specs.Churn.{drawn_hints};

use bc_model::{Op, Slot};
use bc_trace::Verb;
use std::marker::Model;

const MULTIPLIER: u64 = 6_364_136_223_846_793_005;

const INCREMENT: u64 = 1_442_695_040_888_963_407;

/// Domains of the workload.
pub const DOMAINS: u32 = 4;

/// Root slots of each domain.
pub const SLOTS: u32 = 8;

/// A linear congruential generator, of which draws take the high bits.
#[derive(Drop)]
pub struct Generator {
    number: u64,
}

impl Model for Generator {
    ghost use Rattle.std.specs.Prelude.{ℕ};

    ghost Value = { ℕ };

    ghost view = { λ g. g.number };
}

/// The operation that each of the twenty kinds is.
#[tactic(auto, unfolding(crate::specs::Draws::verb_of_kind))]
fn verb_of(kind: u32) -> Verb
    requires { kind < 20 }
    ensures { result ≡ verb_of_kind kind }
{
    match kind {
        0..=5 => Verb::New,
        6 => Verb::Who,
        7 => Verb::Len,
        8..=9 => Verb::Set,
        10 => Verb::Cut,
        11..=13 => Verb::Link,
        14..=16 => Verb::Load,
        17 => Verb::Copy,
        18 => Verb::Clear,
        _ => Verb::Same,
    }
}

impl Generator {
    /// A generator that draws from this number on.
    pub fn new(start: u64) -> Generator
        ensures { result ≡ start }
    {
        Generator { number: start }
    }

    /// A number below `limit`.
    #[tactic(auto, unfolding(crate::specs::Draws::draw, crate::specs::Draws::next_number))]
    pub fn draw(&mut self, limit: u32) -> u32
        requires { 0 < limit }
        ensures drawn { result ≡ draw self.old limit }
        ensures below { result < limit }
        ensures next { self.new ≡ next_number self.old }
    {
        self.number = self.number.wrapping_mul(MULTIPLIER).wrapping_add(INCREMENT);
        ((self.number >> 33) as u32) % limit
    }

    /// The hints of one turn.
    pub fn hints(&mut self) -> [u32; 3]
        ensures hints { result ≡ drawn_hints self.old }
        ensures next { self.new ≡ number_after 3 self.old }
    {
        let first = self.draw(128);
        let second = self.draw(128);
        [first, second, self.draw(128)]
    }

    fn slot(&mut self) -> Slot
        ensures slot { result ≡ drawn_slot self.old }
        ensures next { self.new ≡ number_after 2 self.old }
    {
        let domain = self.draw(DOMAINS);
        Slot {
            domain,
            slot: self.draw(SLOTS),
        }
    }

    /// An operation: its kind, and then its operands from left to right.
    #[tactic(auto, unfolding(crate::specs::Draws::number_after_op, crate::specs::Draws::drawn_with, crate::specs::Draws::limits_of))]
    pub fn op(&mut self) -> Op
        ensures op { result ≡ drawn_op self.old }
        ensures next { self.new ≡ number_after_op self.old }
    {
        let verb = verb_of(self.draw(20));
        let slot = self.slot();
        match verb {
            Verb::New => Op::New(slot, self.draw(8)),
            Verb::Who => Op::Who(slot),
            Verb::Len => Op::Len(slot),
            Verb::Set => {
                let field = self.draw(4);
                Op::Set(slot, field, self.draw(1000) as u64)
            }
            Verb::Cut => Op::Cut(slot, self.draw(4)),
            Verb::Link => {
                let field = self.draw(4);
                Op::Link(slot, field, self.slot())
            }
            Verb::Load => {
                let field = self.draw(4);
                Op::Load(slot, field, self.slot())
            }
            Verb::Copy => Op::Copy(slot, self.slot()),
            Verb::Clear => Op::Clear(slot),
            Verb::Same => Op::Same(slot, self.slot()),
        }
    }
}
