//! A phase: room for the replies is taken, the rounds are run, and domains change hands or are frozen.

ghost use Rattle.std.specs.Prelude.{◌≡◌, ◌≢◌, ◌⊎◌, ℕ, ◌+◌, ◌<◌, ◌≤◌, true, false, List, [], length, Some, None, Result, Ok, Err, sum_by, vec_capacity, IfOk, OnOk, slice_index};
ghost use Rattle.std.specs.List.{AllByRecursion};
ghost use Rattle.bc_engine.specs.Answers.{IfNoRoom, IfPhaseOutOfHeap, IfTooSmall, IsOutOfHeap, IsNoMemory};
ghost use Rattle.bc_engine.specs.Engines.{EngineStands, EngineView, HasEmptyChunks};
ghost use Rattle.bc_engine.specs.EngineFacts.{HasRoomForBirths, IsUnrecorded, with_holders};
ghost use Rattle.bc_engine.specs.Inside.{with_log};
ghost use Rattle.bc_engine.specs.Lanes.{of_lane, BirthsWithin, HasRoomForOps, left};
ghost use Rattle.bc_engine.specs.PhaseTurns.{HadTurns, HadTurnsToCut, HadTurnsToWant, HasNoHints};
ghost use Rattle.bc_engine.specs.Phases.{DidPhase, CutPhase};
ghost use Rattle.bc_engine.specs.Rounds.{IsRoomFor, IsThrough, IsTooSmall, IsUnderwayOn, RanAll, RanToCut, RanToWant, RoundsWentOn};
ghost use Rattle.bc_model.specs.Rows.{lists_of};
ghost use Rattle.bc_model.specs.Need.{IsNeed};
ghost use Rattle.bc_model.specs.Run.{after_changes};
ghost use Rattle.bc_model.specs.State.{State, changed};
ghost use Rattle.bc_model.specs.WellFormed.{FitsChange, FitsFrames, IsPhase};
ghost use Rattle.bc_pager.specs.Claiming.{unshared};
ghost use Rattle.bc_pager.specs.Serving.{told_with};
ghost use Rattle.bc_pager.specs.declared.notices.Notice.{Notice};

use crate::engines::{Ended, Engine};
use crate::opened::{Opened, TurnLog, room_for_turns};
use crate::rounds::RoundsError;
use bc_failsafe::law_room;
use bc_gates::{Gate, Host};
use bc_model::{Change, Op, Phase, Replies, Reply, TurnLine};
use bc_pager::{ListNotices, Notices};
use bc_turn::TurnRoom;
use std::alloc::{AllocError, Global};
use std::thread::Threads;

/// Why a phase isn't done.
#[derive(Drop)]
pub enum PhaseError {
    /// What the engine stands for after these replies needs this many superpages, which is more than there are. On an engine that
    /// had ended so, there are no replies.
    OutOfHeap { replies: Replies, need: u64 },
    /// There was no memory for the replies, for the list of turns, or for the answers to the notices of a round, in this phase or in an earlier one. The
    /// engine may be used only to be dropped.
    NoMemory,
}

impl Engine {
    /// Does a phase, which fits the setup: the operations of all lanes, and then the gives and freezes in their order. Each lane's births so
    /// far and its operations in the phase together are fewer than 2^32.
    ///
    /// It answers `OutOfHeap` where an emptying of the nurseries finds that the heap is too small, with the replies up to there,
    /// and `NoMemory` where there is no memory for all replies and for the list of turns, before anything is done, or for the answers to the
    /// notices of a round, before that round: nothing else is refused for lack of memory. Both end the engine. One that ended out of heap answers the same need
    /// again with no replies, and changes nothing; one that ended out of memory answers that alone.
    ///
    /// In each turn, of the lanes or of the marking of a collection, a page is given up for each hint of the turn's line: beside others at a table
    /// one that can be taken, on the heap itself one that can leave; none where there is no such page. No reply says that, but the engine's answers
    /// do. The n-th turn has the n-th line, and after the last line comes the first one again.
    ///
    /// In each turn of the lanes, and in the mark turns after it, no page has one of so many frames as the turn's line withholds, which is at most as
    /// many as leaves two beside the nurseries' pages. After a phase that is done no frame is withheld. One that ends out of heap leaves them withheld.
    /// The engine lists these turns (`opened`).
    pub fn phase<R, G>(
        &mut self,
        rt: &R,
        alloc: Global,
        phase: &Phase,
        gate: &G,
    ) -> Result<Replies, PhaseError>
    where
        R: Threads + Sync,
        G: Gate + Sync,
        requires phase { IsPhase self.old.setup phase.now }
        requires budgets { AllByRecursion (FitsFrames self.old.setup) phase.now.turns }
        requires births { HasRoomForOps self.old phase.now.lanes 0 }
        ensures done { self.old.ended ≡ None → IfOk result (λ replies. DidPhase self.old phase.now self.new replies) }
        ensures cut { self.old.ended ≡ None → IfPhaseOutOfHeap result (λ replies need. CutPhase self.old phase.now self.new replies need) }
        // Notices are answered turn by turn, in the order of the phase's lines, and the answers are the engine's.
        ensures turns { self.old.ended ≡ None → IfOk result (λ replies. HadTurns self.old phase.now self.new replies []) }
        ensures cut_turns { self.old.ended ≡ None → IfPhaseOutOfHeap result (λ replies need. HadTurnsToCut self.old phase.now self.new replies []) }
        ensures again { (need : ℕ) → self.old.ended ≡ Some (Ended.OutOfHeap need) → IsOutOfHeap result [] need }
        ensures ended { self.old.ended ≢ None → self.new ≡ self.old }
        ensures gone { self.old.ended ≡ Some Ended.NoMemory → IsNoMemory result }
        ensures setup { (self.new.setup ≡ self.old.setup) × (self.new.workers ≡ self.old.workers) }
        ensures no_memory { IsNoMemory result → self.new.ended ≡ Some Ended.NoMemory }
        // Without notices memory runs out before anything is done, and else it may also before a round.
        ensures undone { IsNoMemory result → HasNoHints phase.now.turns → self.new ≡ record self.old { ended = self.new.ended; live = self.new.live } }
        ensures want { IsNoMemory result → self.old.ended ≡ None
            → (self.new ≡ record self.old { ended = self.new.ended; live = [] }) ⊎ HadTurnsToWant self.old phase.now self.new [] false }
        ensures births { (j : ℕ) → slice_index self.new.running.serials j ≤ slice_index self.old.running.serials j + length (of_lane phase.now.lanes j) }
        ensures room { (n : ℕ) → HasRoomForOps self.old phase.now.lanes n → HasRoomForBirths self.new n }
        // No live pager takes any notice.
        ensures unfed { self.old.ended ≡ None → self.new.live ≡ [] }
    {
        let mut none = ListNotices::none(alloc);
        self.phase_with(rt, alloc, phase, &mut none, gate)
    }

    /// Does a phase as `phase` does, and in each turn of the lanes a live pager takes notices from `live` and answers them, where one more may
    /// come: until there is none, or until it answered 64 in the turn. What it leaves is there for the next turn. The answers are those of
    /// `live_answers`, one to each notice that was taken, in order. No reply depends on them. That a live pager asks the feed at
    /// all is shown by tests, and no clause says it.
    ///
    /// Room for them is taken before a round, and only where one more may come; without it the phase ends out of memory, as it does without room for
    /// the answers to the lines' notices. Where the engine had ended, or there is no memory before anything is done, no notice is taken. A feed from
    /// which none may come isn't asked.
    pub fn phase_with<R, N, G>(
        &mut self,
        rt: &R,
        alloc: Global,
        phase: &Phase,
        live: &mut N,
        gate: &G,
    ) -> Result<Replies, PhaseError>
    where
        R: Threads + Sync,
        N: Notices + Send,
        G: Gate + Sync,
        requires unshared { N.shared live.old ≡ unshared }
        requires phase { IsPhase self.old.setup phase.now }
        requires budgets { AllByRecursion (FitsFrames self.old.setup) phase.now.turns }
        requires births { HasRoomForOps self.old phase.now.lanes 0 }
        ensures done { self.old.ended ≡ None → IfOk result (λ replies. DidPhase self.old phase.now self.new replies) }
        ensures cut { self.old.ended ≡ None → IfPhaseOutOfHeap result (λ replies need. CutPhase self.old phase.now self.new replies need) }
        // Notices are answered turn by turn, in the order of the phase's lines, and the answers are the engine's. So are those to the notices that
        // live pagers took from the feed, each once and in order.
        ensures turns { self.old.ended ≡ None → IfOk result (λ replies. (fed : List Notice) × (N.taken live.new ≡ told_with (N.taken live.old) fed)
            × HadTurns self.old phase.now self.new replies fed) }
        ensures cut_turns { self.old.ended ≡ None → IfPhaseOutOfHeap result (λ replies need. (fed : List Notice) × (N.taken live.new ≡ told_with (N.taken live.old) fed)
            × HadTurnsToCut self.old phase.now self.new replies fed) }
        ensures again { (need : ℕ) → self.old.ended ≡ Some (Ended.OutOfHeap need) → IsOutOfHeap result [] need }
        ensures ended { self.old.ended ≢ None → (self.new ≡ self.old) × (live.new ≡ live.old) }
        ensures gone { self.old.ended ≡ Some Ended.NoMemory → IsNoMemory result }
        ensures setup { (self.new.setup ≡ self.old.setup) × (self.new.workers ≡ self.old.workers) }
        ensures no_memory { IsNoMemory result → self.new.ended ≡ Some Ended.NoMemory }
        // Without notices memory runs out before anything is done, and else it may also before a round.
        ensures undone { IsNoMemory result → HasNoHints phase.now.turns → N.coming live.old ≡ false → self.new ≡ record self.old { ended = self.new.ended; live = self.new.live } }
        ensures want { IsNoMemory result → self.old.ended ≡ None
            → ((self.new ≡ record self.old { ended = self.new.ended; live = [] }) × (live.new ≡ live.old))
            ⊎ ((fed : List Notice) × (N.taken live.new ≡ told_with (N.taken live.old) fed) × HadTurnsToWant self.old phase.now self.new fed (N.coming live.new)) }
        ensures births { (j : ℕ) → slice_index self.new.running.serials j ≤ slice_index self.old.running.serials j + length (of_lane phase.now.lanes j) }
        ensures room { (n : ℕ) → HasRoomForOps self.old phase.now.lanes n → HasRoomForBirths self.new n }
        // The feed's hints and bounds stay, and one from which none may come isn't asked.
        ensures unfed { self.old.ended ≡ None → N.coming live.old ≡ false → self.new.live ≡ [] }
        ensures feed { (N.shared live.new ≡ N.shared live.old) × (N.told live.new ≡ N.told live.old) × (N.most live.new ≡ N.most live.old) }
        ensures idle { N.coming live.old ≡ false → live.new ≡ live.old }
    {
        match self.ended {
            None => {}
            Some(Ended::OutOfHeap { need }) => {
                let replies = Replies {
                    lanes: Vec::new(alloc),
                };
                return Err(PhaseError::OutOfHeap { replies, need });
            }
            Some(Ended::NoMemory) => return Err(PhaseError::NoMemory),
        }
        self.clear_live();
        match room_for_phase(alloc, &phase.lanes) {
            Ok(room) => {
                let host = Host {
                    threads: rt,
                    alloc,
                    gate,
                };
                self.replay(&host, phase, room.replies, room.opened, live)
            }
            Err(_) => {
                self.end_for_want();
                Err(PhaseError::NoMemory)
            }
        }
    }

    /// Ends the engine, out of memory.
    fn end_for_want(&mut self)
        ensures { self.new ≡ record self.old { ended = Some Ended.NoMemory } }
    {
        self.ended = Some(Ended::NoMemory);
    }

    /// Does a phase on an engine that hasn't ended, and that has no answers to notices of live pagers, with room for the reply to each operation, and
    /// to note the turns.
    fn replay<R, N, G>(
        &mut self,
        host: &Host<R, G>,
        phase: &Phase,
        replies: Vec<Vec<Reply>>,
        opened: Vec<Opened>,
        live: &mut N,
    ) -> Result<Replies, PhaseError>
    where
        R: Threads + Sync,
        N: Notices + Send,
        G: Gate + Sync,
        requires unshared { N.shared live.old ≡ unshared }
        requires empty { self.old.live ≡ [] }
        requires going { self.old.ended ≡ None }
        requires phase { IsPhase self.old.setup phase.now }
        requires budgets { AllByRecursion (FitsFrames self.old.setup) phase.now.turns }
        requires births { HasRoomForOps self.old phase.now.lanes 0 }
        requires long { length replies.items ≡ length phase.now.lanes }
        requires room { IsRoomFor phase.now.lanes replies.items }
        requires none { opened.items ≡ [] }
        requires turns { sum_by length phase.now.lanes + 1 ≤ vec_capacity opened }
        ensures done { IfOk result (λ told. DidPhase self.old phase.now self.new told) }
        ensures cut { IfPhaseOutOfHeap result (λ told need. CutPhase self.old phase.now self.new told need) }
        ensures setup { (self.new.setup ≡ self.old.setup) × (self.new.workers ≡ self.old.workers) }
        ensures turns { IfOk result (λ told. (fed : List Notice) × (N.taken live.new ≡ told_with (N.taken live.old) fed)
            × HadTurns self.old phase.now self.new told fed) }
        ensures cut_turns { IfPhaseOutOfHeap result (λ told need. (fed : List Notice) × (N.taken live.new ≡ told_with (N.taken live.old) fed)
            × HadTurnsToCut self.old phase.now self.new told fed) }
        ensures want { IsNoMemory result → (fed : List Notice) × (N.taken live.new ≡ told_with (N.taken live.old) fed)
            × HadTurnsToWant self.old phase.now self.new fed (N.coming live.new) }
        ensures feed { (N.shared live.new ≡ N.shared live.old) × (N.told live.new ≡ N.told live.old) × (N.most live.new ≡ N.most live.old) }
        ensures idle { N.coming live.old ≡ false → (live.new ≡ live.old) × (self.new.live ≡ []) }
        ensures births { (j : ℕ) → slice_index self.new.running.serials j ≤ slice_index self.old.running.serials j + length (of_lane phase.now.lanes j) }
    {
        let answers = self.take_answers(host.alloc);
        let lived = self.take_live(host.alloc);
        let mut log = TurnLog {
            answers,
            opened,
            live: lived,
        };
        let told = self.run_phase(host, phase, replies, live, &mut log);
        self.keep_turns(log);
        told
    }

    /// Does such a phase, and keeps its turns and what became of its notices in these lists, in which there is nothing yet.
    fn run_phase<R, N, G>(
        &mut self,
        host: &Host<R, G>,
        phase: &Phase,
        mut replies: Vec<Vec<Reply>>,
        live: &mut N,
        log: &mut TurnLog,
    ) -> Result<Replies, PhaseError>
    where
        R: Threads + Sync,
        N: Notices + Send,
        G: Gate + Sync,
        requires unshared { N.shared live.old ≡ unshared }
        requires going { self.old.ended ≡ None }
        requires phase { IsPhase self.old.setup phase.now }
        requires budgets { AllByRecursion (FitsFrames self.old.setup) phase.now.turns }
        requires births { HasRoomForOps self.old phase.now.lanes 0 }
        requires long { length replies.items ≡ length phase.now.lanes }
        requires room { IsRoomFor phase.now.lanes replies.items }
        requires none { (log.old.answers.items ≡ []) × (log.old.opened.items ≡ []) × (log.old.live.items ≡ []) }
        requires turns { sum_by length phase.now.lanes + 1 ≤ vec_capacity log.old.opened }
        ensures done { IfOk result (λ told. DidPhase self.old phase.now self.new told) }
        ensures cut { IfPhaseOutOfHeap result (λ told need. CutPhase self.old phase.now self.new told need) }
        ensures setup { (self.new.setup ≡ self.old.setup) × (self.new.workers ≡ self.old.workers) }
        ensures turns { IfOk result (λ told. (fed : List Notice) × (N.taken live.new ≡ told_with (N.taken live.old) fed)
            × HadTurns self.old phase.now (with_log self.new log.new) told fed) }
        ensures cut_turns { IfPhaseOutOfHeap result (λ told need. (fed : List Notice) × (N.taken live.new ≡ told_with (N.taken live.old) fed)
            × HadTurnsToCut self.old phase.now (with_log self.new log.new) told fed) }
        ensures want { IsNoMemory result → (fed : List Notice) × (N.taken live.new ≡ told_with (N.taken live.old) fed)
            × HadTurnsToWant self.old phase.now (with_log self.new log.new) fed (N.coming live.new) }
        ensures feed { (N.shared live.new ≡ N.shared live.old) × (N.told live.new ≡ N.told live.old) × (N.most live.new ≡ N.most live.old) }
        ensures idle { N.coming live.old ≡ false → (live.new ≡ live.old) × (log.new.live.items ≡ log.old.live.items) }
        ensures births { (j : ℕ) → slice_index self.new.running.serials j ≤ slice_index self.old.running.serials j + length (of_lane phase.now.lanes j) }
    {
        self.facts();
        match self.rounds(host, &phase.lanes, &phase.turns, &mut replies, live, log) {
            Ok(()) => {
                self.facts();
                self.change_all(&phase.gives);
                self.room_facts();
                Ok(Replies { lanes: replies })
            }
            Err(RoundsError::TooSmall { need }) => {
                self.facts();
                let replies = Replies { lanes: replies };
                Err(PhaseError::OutOfHeap { replies, need })
            }
            Err(RoundsError::NoRoom(_)) => Err(PhaseError::NoMemory),
        }
    }

    /// Runs the rounds of a phase (`Player::rounds`), and ends the engine where they end before all lanes are at their ends.
    fn rounds<R, N, G>(
        &mut self,
        host: &Host<R, G>,
        lanes: &[Vec<Op>],
        lines: &[TurnLine],
        replies: &mut [Vec<Reply>],
        live: &mut N,
        log: &mut TurnLog,
    ) -> Result<(), RoundsError>
    where
        R: Threads + Sync,
        N: Notices + Send,
        G: Gate + Sync,
        requires unshared { N.shared live.old ≡ unshared }
        requires going { self.old.ended ≡ None }
        requires underway { IsUnderwayOn self.old (lists_of lanes.now) replies.old }
        requires budgets { AllByRecursion (FitsFrames self.old.setup) lines.now }
        requires room { length log.old.opened.items + left (lists_of lanes.now) (lists_of replies.old) + 1 ≤ vec_capacity log.old.opened }
        ensures same { (self.new.running.holders ≡ self.old.running.holders) × (self.new.setup ≡ self.old.setup) × (self.new.workers ≡ self.old.workers) }
        ensures births { BirthsWithin (lists_of lanes.now) self.old.running.serials (lists_of replies.old) self.new.running.serials (lists_of replies.new) }
        ensures on { OnOk result (RoundsWentOn (lists_of lanes.now) self.old replies.old self.new replies.new) }
        ensures through { OnOk result (IsThrough (lists_of lanes.now) self.new replies.new) }
        ensures turns { OnOk result ((fed : List Notice) × (N.taken live.new ≡ told_with (N.taken live.old) fed) × (turns : ℕ) × RanAll (lists_of lanes.now) lines.now
            (with_log self.old log.old) replies.old turns (with_log self.new log.new) replies.new fed) }
        ensures cut { IfTooSmall result (λ need. IsTooSmall (lists_of lanes.now) self.old replies.old self.new replies.new need) }
        ensures cut_turns { IfTooSmall result (λ need. (fed : List Notice) × (N.taken live.new ≡ told_with (N.taken live.old) fed) × (turns : ℕ) × RanToCut (lists_of lanes.now) lines.now
            (with_log self.old log.old) replies.old turns (with_log self.new log.new) replies.new fed) }
        ensures want { IfNoRoom result ((fed : List Notice) × (N.taken live.new ≡ told_with (N.taken live.old) fed) × (last : EngineView) × RanToWant (lists_of lanes.now) lines.now
            (with_log self.old log.old) replies.old last replies.new log.new.answers fed log.new.live (N.coming live.new)
            × (with_log self.new log.new ≡ record last { ended = Some Ended.NoMemory })) }
        ensures feed { (N.shared live.new ≡ N.shared live.old) × (N.told live.new ≡ N.told live.old) × (N.most live.new ≡ N.most live.old) }
        ensures idle { N.coming live.old ≡ false → (live.new ≡ live.old) × (log.new.live.items ≡ log.old.live.items) }
    {
        let mut room = TurnRoom::new(host.alloc);
        match self
            .player
            .rounds(host, &mut room, lanes, lines, replies, live, log)
        {
            Ok(()) => Ok(()),
            Err(RoundsError::TooSmall { need }) => {
                self.ended = Some(Ended::OutOfHeap { need });
                Err(RoundsError::TooSmall { need })
            }
            Err(RoundsError::NoRoom(error)) => {
                self.ended = Some(Ended::NoMemory);
                Err(RoundsError::NoRoom(error))
            }
        }
    }

    /// Has domains change hands or be frozen, one after the other. All chunks and write buffers are empty, and no page is remembered.
    fn change_all(&mut self, changes: &[Change])
        requires alive { self.old.ended ≢ Some Ended.NoMemory }
        requires empty { HasEmptyChunks self.old.running.heap }
        requires unrecorded { IsUnrecorded self.old.running.heap }
        requires changes { AllByRecursion (FitsChange self.old.setup) changes.now }
        ensures changed { (s : State) → EngineStands self.old s → EngineStands self.new (after_changes s changes.now) }
        ensures same { self.new ≡ with_holders self.old self.new.running.holders }
    {
        for change in changes {
            self.change(change);
        }
    }

    /// Has one domain change hands or be frozen.
    fn change(&mut self, change: &Change)
        requires alive { self.old.ended ≢ Some Ended.NoMemory }
        requires empty { HasEmptyChunks self.old.running.heap }
        requires unrecorded { IsUnrecorded self.old.running.heap }
        requires fits { FitsChange self.old.setup change.now }
        ensures changed { (s : State) → EngineStands self.old s → EngineStands self.new (changed s change.now) }
        ensures same { self.new ≡ with_holders self.old self.new.running.holders }
    {
        match *change {
            Change::Give(give) => self.give(give.domain, give.lane),
            Change::Freeze(domain) => self.freeze(domain),
        }
    }

    /// What an engine with empty chunks stands for has a need, and there are at least as many superpages, stated for a caller. It does
    /// nothing.
    fn room_facts(&self)
        requires going { self.now.ended ≡ None }
        requires empty { HasEmptyChunks self.now.running.heap }
        ensures { (s : State) → EngineStands self.now s → (n : ℕ) × IsNeed s n × (n ≤ self.now.setup.superpages) }
    {
        law_room();
        self.player.running.heap().space.facts();
    }
}

/// What a phase takes before anything is done.
#[derive(Drop)]
struct PhaseRoom {
    /// A list for the replies of each lane.
    replies: Vec<Vec<Reply>>,
    /// A list for the turns.
    opened: Vec<Opened>,
}

/// Room for the replies to all operations, and for the turns.
fn room_for_phase(alloc: Global, lanes: &[Vec<Op>]) -> Result<PhaseRoom, AllocError>
    ensures long { IfOk result (λ room. length room.replies.items ≡ length lanes.now) }
    ensures room { IfOk result (λ room. IsRoomFor (lists_of lanes.now) room.replies.items) }
    ensures none { IfOk result (λ room. room.opened.items ≡ []) }
    ensures turns { IfOk result (λ room. sum_by length (lists_of lanes.now) + 1 ≤ vec_capacity room.opened) }
{
    let replies = room_for(alloc, lanes)?;
    let opened = room_for_turns(alloc, lanes)?;
    Ok(PhaseRoom { replies, opened })
}

/// A list for the replies of each lane, with room for a reply to each of its operations.
fn room_for(alloc: Global, lanes: &[Vec<Op>]) -> Result<Vec<Vec<Reply>>, AllocError>
    ensures long { IfOk result (λ replies. length replies.items ≡ length lanes.now) }
    ensures room { IfOk result (λ replies. IsRoomFor (lists_of lanes.now) replies.items) }
{
    let mut replies = Vec::with_capacity(alloc, lanes.len())?;
    for ops in lanes {
        let room = Vec::with_capacity(alloc, ops.len())?;
        replies.push(room)?;
    }
    Ok(replies)
}
