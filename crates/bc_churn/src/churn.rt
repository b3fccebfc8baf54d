//! The workload of `churn`: a trace that a starting number and a number of operations give.
ghost use Rattle.std.specs.Prelude.{◌≡◌, ◌+◌, ◌%◌, ◌<◌, ◌≤◌, ◌^◌, ◌++◌, IfOk, OnOk, slice_set};
ghost use Rattle.bc_model.specs.WellFormed.{IsTrace};
ghost use Rattle.bc_model.specs.declared.values.Holder.TheVariants.{Lane};
ghost use Rattle.bc_churn.specs.Draws.{draw, next_number, number_after, number_after_ops};
ghost use Rattle.bc_churn.specs.Churn.{churn_give, churn_trace, domain_clears, drawn_ops, drawn_turn, lane_clears, number_after_phase, phase_from};

use crate::draws::{DOMAINS, Generator, SLOTS};
use bc_model::{Change, Give, Holder, Op, Phase, Setup, Slot, Trace, TurnLine};
use std::alloc::{AllocError, Global};

/// The most drawn operations of a lane in a phase.
const OPS_A_PHASE: u32 = 1000;

/// A clear of each slot of a domain.
#[tactic(auto, unfolding(crate::specs::Churn::domain_clears))]
fn clears_of(domain: u32) -> [Op; 8]
    ensures { result ≡ domain_clears domain }
{
    let clear = |slot: u32| Op::Clear(Slot { domain, slot });
    [
        clear(0),
        clear(1),
        clear(2),
        clear(3),
        clear(4),
        clear(5),
        clear(6),
        clear(7),
    ]
}

/// How many domains the lane holds.
fn count_held(holders: &[Holder; 4], lane: u32) -> usize
    ensures { result ≤ 4 }
{
    holders
        .iter()
        .filter(|holder| holder.lets_write(lane))
        .count()
}

/// The operations of a lane: what it begins the phase with, and `count` drawn ones.
#[tactic(auto, using(crate::proofs::Drawing::churn_lists))]
fn lane_ops(
    alloc: Global,
    generator: &mut Generator,
    holders: &[Holder; 4],
    lane: u32,
    count: u32,
) -> Result<Vec<Op>, AllocError>
    ensures ops { IfOk result (λ ops. ops.items ≡ lane_clears holders.now lane ++ drawn_ops count generator.old) }
    ensures next { OnOk result (generator.new ≡ number_after_ops count generator.old) }
{
    let clears = count_held(holders, lane) * SLOTS as usize;
    let mut ops = Vec::with_capacity(alloc, clears + count as usize)?;
    for domain in 0..DOMAINS {
        if holders[domain as usize].lets_write(lane) {
            ops.extend_from_slice(&clears_of(domain))?;
        }
    }
    for _ in 0..count {
        ops.push(generator.op())?;
    }
    Ok(ops)
}

/// The give at the end of phase `phase`, which counts from 0. The domain is the lane's from then on.
fn draw_give(generator: &mut Generator, holders: &mut [Holder; 4], phase: u32) -> Give
    requires { phase + 1 < 2 ^ 32 }
    ensures domain { result.domain ≡ (phase + 1) % 4 }
    ensures lane { result.lane ≡ draw generator.old 2 }
    ensures next { generator.new ≡ next_number generator.old }
    ensures holders { holders.new ≡ slice_set holders.old result.domain (Lane result.lane) }
{
    let give = Give {
        domain: (phase + 1) % DOMAINS,
        lane: generator.draw(2),
    };
    holders[give.domain as usize] = Holder::Lane(give.lane);
    give
}

/// The line of a turn, which withholds no frame.
fn draw_turn(alloc: Global, generator: &mut Generator) -> Result<TurnLine, AllocError>
    ensures turn { IfOk result (λ t. t ≡ drawn_turn generator.old) }
    ensures next { OnOk result (generator.new ≡ number_after 3 generator.old) }
{
    Ok(TurnLine {
        withheld: 0,
        hints: Vec::from_slice(alloc, &generator.hints())?,
    })
}

/// Phase `phase`, which counts from 0, with `count` drawn operations a lane.
#[tactic(auto, unfolding(crate::specs::Churn::phase_from, crate::specs::Churn::number_after_phase))]
fn draw_phase(
    alloc: Global,
    generator: &mut Generator,
    holders: &mut [Holder; 4],
    phase: u32,
    count: u32,
) -> Result<Phase, AllocError>
    requires { phase + 1 < 2 ^ 32 }
    ensures phase { IfOk result (λ p. p ≡ phase_from phase count generator.old holders.old) }
    ensures next { OnOk result (generator.new ≡ number_after_phase count generator.old) }
    ensures holders { OnOk result (holders.new ≡ slice_set holders.old (churn_give phase count generator.old).domain (Lane (churn_give phase count generator.old).lane)) }
{
    let first = draw_turn(alloc, generator)?;
    let second = draw_turn(alloc, generator)?;
    let turns = vec![in alloc; first, second]?;
    let first = lane_ops(alloc, generator, holders, 0, count)?;
    let second = lane_ops(alloc, generator, holders, 1, count)?;
    let lanes = vec![in alloc; first, second]?;
    let gives = vec![in alloc; Change::Give(draw_give(generator, holders, phase))]?;
    Ok(Phase {
        turns,
        lanes,
        gives,
    })
}

/// The trace that `bc churn start ops` replays: `ops` drawn operations for each of two lanes. Takes the memory of the trace.
pub fn generate(alloc: Global, start: u64, ops: u32) -> Result<Trace, AllocError>
    ensures trace { IfOk result (λ t. t ≡ churn_trace start ops) }
    ensures formed { IfOk result (λ t. IsTrace t) }
{
    let mut generator = Generator::new(start);
    let mut holders = [
        Holder::Lane(0),
        Holder::Lane(1),
        Holder::Lane(0),
        Holder::Lane(1),
    ];
    let count = ops.div_ceil(OPS_A_PHASE);
    let mut phases = Vec::with_capacity(alloc, count as usize)?;
    for phase in 0..count {
        let drawn = OPS_A_PHASE.min(ops - OPS_A_PHASE * phase);
        let made = draw_phase(alloc, &mut generator, &mut holders, phase, drawn)?;
        phases.push(made)?;
    }
    let setup = Setup {
        lanes: 2,
        domains: DOMAINS,
        slots: SLOTS,
        superpages: 32,
        nursery: 2,
        buffer: 64,
        frames: 24,
    };
    Ok(Trace {
        version: 1,
        setup,
        phases,
    })
}
