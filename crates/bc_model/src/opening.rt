//! Which lane holds which domain as a run begins.

ghost use Rattle.std.specs.Prelude.{◌≡◌, ◌<◌, ◌%◌, IfOk, map};
ghost use Rattle.bc_model.specs.State.{numbers_below};
ghost use Rattle.bc_model.specs.declared.values.Holder.{Holder};

use crate::values::Holder;
use std::alloc::{AllocError, Global};

/// The holder of each domain as a run begins: domain `d` is lane `d % lanes`'s, and none is frozen.
pub fn first_holders(alloc: Global, domains: u32, lanes: u32) -> Result<Vec<Holder>, AllocError>
    requires { 0 < lanes }
    ensures { IfOk result (λ holders. holders.items ≡ map (λ d. Holder.Lane (d % lanes)) (numbers_below domains)) }
{
    let mut holders = Vec::with_capacity(alloc, domains as usize)?;
    for domain in 0..domains {
        holders.push(Holder::Lane(domain % lanes))?;
    }
    Ok(holders)
}
