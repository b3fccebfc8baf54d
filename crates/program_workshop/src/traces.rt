//! Texts of traces.

use std::alloc::{AllocError, Global};

/// A header's numbers: one lane, one domain, two slots, one superpage.
pub const SMALL: [u32; 7] = [1, 1, 2, 1, 1, 4, 3];

/// Two lanes, two domains of one slot each, two superpages.
pub const ONE_SLOT_EACH: [u32; 7] = [2, 2, 1, 2, 1, 4, 4];

/// Two lanes, two domains of two slots each, two superpages.
pub const TWO_LANES: [u32; 7] = [2, 2, 2, 2, 1, 4, 4];

/// Two lanes, four domains of two slots each, two superpages.
pub const FOUR_DOMAINS: [u32; 7] = [2, 4, 2, 2, 1, 4, 4];

/// A phase of `SMALL`, which leaves a reference in the first slot and 7 in the second.
pub const FIRST_PHASE: &str = "phase\nlane 0\nnew 0 0 2\nset 0 0 1 7\nload 0 0 1 0 1\nend\ndone\n";

/// What it prints.
pub const FIRST_PRINTED: &str = "phase 1\nlane 0\nobj 0.1\nok\nnum 7\ndone\n";

/// Three phases of `TWO_LANES`. In the third the chunk of lane 1 is full before its sixth operation, and what is reached then needs a
/// superpage more than there are.
pub const CUT_SHORT: &str =
    "phase\nlane 0\nnew 0 0 0\nlane 1\nnew 1 0 1\nend\nphase\nlane 0\nwho 0 0\nlane 1\nlen 1 0\nend\nphase\nlane 0\nnew 0 1 1\nlane 1\nwho 1 0\nnew 1 1 127\nnew 1 1 127\nnew 1 1 127\nnew 1 1 127\nnew 1 1 127\nwho 1 1\nend\ndone\n";

/// What its phases print: texts of 38, 36 and 70 bytes, and after the last one the line of the need.
pub const CUT_PRINTED: [&str; 3] = [
    "phase 1\nlane 0\nobj 0.1\nlane 1\nobj 1.1\n",
    "phase 2\nlane 0\nobj 0.1\nlane 1\nlen 1\n",
    "phase 3\nlane 0\nobj 0.2\nlane 1\nobj 1.1\nobj 1.2\nobj 1.3\nobj 1.4\nobj 1.5\nout of heap 3\n",
];

/// Three phases of `FOUR_DOMAINS`, between which domain 2 goes to lane 1 and comes back.
pub const GIVEN: &str =
    "phase\nlane 0\nnew 0 0 1\nnew 2 0 0\nlink 0 0 0 2 0\nlane 1\ngive 2 1\nend\nphase\nlane 0\nload 0 0 0 0 1\nwho 0 1\nlen 0 1\nwho 2 0\nlane 1\nwho 2 0\ngive 2 0\nend\nphase\nlane 0\nwho 0 1\nlane 1\nend\ndone\n";

/// The header's eight lines with these numbers, and lines after it.
pub fn trace(alloc: Global, numbers: [u32; 7], lines: &str) -> Result<String, AllocError> {
    trace_in(alloc, 1, numbers, lines)
}

/// The same in another version of the language.
pub fn trace_in(
    alloc: Global,
    version: u32,
    numbers: [u32; 7],
    lines: &str,
) -> Result<String, AllocError> {
    let [lanes, domains, slots, superpages, nursery, buffer, frames] = numbers;
    format!(in alloc;
        "bc-trace {version}\nlanes {lanes}\ndomains {domains}\nslots {slots}\nsuperpages {superpages}\nnursery {nursery}\nbuffer {buffer}\nframes {frames}\n{lines}"
    )
}

/// These lines so many times.
pub fn repeated(alloc: Global, lines: &str, times: u32) -> Result<String, AllocError> {
    let mut text = String::new(alloc);
    for _ in 0..times {
        text.push_str(lines)?;
    }
    Ok(text)
}

/// What `resume` reads: an image, and the trace after it.
pub fn followed(alloc: Global, image: &[u8], trace: &[u8]) -> Result<Vec<u8>, AllocError> {
    let mut input = image.to_vec(alloc)?;
    input.extend_from_slice(trace)?;
    Ok(input)
}
