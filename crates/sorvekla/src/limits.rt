//! How large a heap is.

ghost use Rattle.std.specs.Prelude.{◌≡◌, IfNone, IfSome};
ghost use Rattle.bc_model.specs.WellFormed.{IsSetup, IsWithin};
ghost use Rattle.sorvekla.specs.Limits.{IsLimitFault, setup_of};

use crate::errors::OpenError;
use bc_model::Setup;

/// How large a heap is. `Limits::default()` is a heap of 4 MiB in cells, of one lane and one domain, whose pages all stay in memory; change
/// what you need: `Limits { superpages: 64, frames: 40, ..Limits::default() }`.
#[derive(Clone, Copy, PartialEq, Eq, Debug)]
pub struct Limits {
    /// Lanes, from 1 to 16. By default 1.
    pub lanes: u32,
    /// Domains, from 1 to 64, of which domain d is held by lane d modulo the number of lanes. By default 1.
    pub domains: u32,
    /// Root slots of each domain, from 1 to 256. By default 64.
    pub slots: u32,
    /// Superpages of four pages of 4 KiB, from 1 to 4,096. By default 256.
    pub superpages: u32,
    /// Nursery pages of each lane, of 4 KiB, from 1 to 16. By default 4.
    pub nursery: u32,
    /// Write-buffer entries of each lane, from 1 to 4,096. By default 1,024.
    pub buffer: u32,
    /// Page frames: how many pages may be in memory at a time, nursery pages among them. At least two more than these. More than all
    /// pages are not used. By default as many as there are pages, so that none has to leave.
    pub frames: u32,
    /// Workers of a collection: how many threads may mark and sweep, from 1 to 16. By default 1. With more a collection may ask for memory, and
    /// does without where there is none.
    pub workers: u32,
}

impl Default for Limits {
    ghost use Rattle.sorvekla.specs.Limits.{default_limits};

    ghost is_default = { λ limits. limits ≡ default_limits };

    fn default() -> Self {
        Limits {
            lanes: 1,
            domains: 1,
            slots: 64,
            superpages: 256,
            nursery: 4,
            buffer: 1024,
            frames: u32::MAX,
            workers: 1,
        }
    }
}

/// The first limit that is out of its range.
pub(crate) fn limit_fault(limits: &Limits) -> Option<OpenError>
    ensures none { IfNone result (IsSetup (setup_of limits.now)) }
    ensures workers { IfNone result (IsWithin 1 16 limits.now.workers) }
    ensures fault { IfSome result (λ error. IsLimitFault limits.now error) }
{
    if limits.lanes < 1 || limits.lanes > 16 {
        return Some(OpenError::Lanes);
    }
    if limits.domains < 1 || limits.domains > 64 {
        return Some(OpenError::Domains);
    }
    if limits.slots < 1 || limits.slots > 256 {
        return Some(OpenError::Slots);
    }
    if limits.superpages < 1 || limits.superpages > 4096 {
        return Some(OpenError::Superpages);
    }
    if limits.nursery < 1 || limits.nursery > 16 {
        return Some(OpenError::Nursery);
    }
    if limits.buffer < 1 || limits.buffer > 4096 {
        return Some(OpenError::Buffer);
    }
    if limits.frames < limits.lanes * limits.nursery + 2 {
        return Some(OpenError::Frames);
    }
    if limits.workers < 1 || limits.workers > 16 {
        return Some(OpenError::Workers);
    }
    None
}

/// The setup of a heap with these limits, which are in their ranges.
pub(crate) fn setup_in_range(limits: &Limits) -> Setup
    requires range { IsSetup (setup_of limits.now) }
    ensures setup { result ≡ setup_of limits.now }
{
    let most = limits.lanes * limits.nursery + 4 * limits.superpages;
    Setup {
        lanes: limits.lanes,
        domains: limits.domains,
        slots: limits.slots,
        superpages: limits.superpages,
        nursery: limits.nursery,
        buffer: limits.buffer,
        frames: limits.frames.min(most),
    }
}
