//! Objects of which few fill a page.

use std::alloc::{AllocError, Global};

/// So many lines by which the domain's slots from 0 on get objects of 126 fields, of which four fill a nursery page and four a page.
pub fn big_objects(alloc: Global, domain: u32, slots: u32) -> Result<String, AllocError> {
    let mut text = String::new(alloc);
    for slot in 0..slots {
        let line = format!(in alloc; "new {domain} {slot} 126\n")?;
        text.push_str(&line)?;
    }
    Ok(text)
}

/// The lane's replies to so many new objects, its first ones.
pub fn first_births(alloc: Global, lane: u32, objects: u32) -> Result<String, AllocError> {
    let mut text = String::new(alloc);
    for serial in 1..=objects {
        let line = format!(in alloc; "obj {lane}.{serial}\n")?;
        text.push_str(&line)?;
    }
    Ok(text)
}
