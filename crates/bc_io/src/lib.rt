//! Where bytes come from and where they go.
//!
//! The program never meets a file or a terminal by itself. It reads from a `Source` and writes to a
//! `Sink`, two traits whose contracts say, in terms for proofs alone, what a device has left to
//! give (`left`), what it holds (`held`), for how many bytes it has room (`room`), and how often it
//! has failed (`faults`). Each of the first three is known or not known: of the devices in memory
//! they are known, of the real streams not. The count of faults is always known and never falls. A call answers
//! `Failed` only where that count rose, and is `Ok` only where it didn't, so no layer above can blame
//! a device for a fault that it didn't have, or hide one that it had.
//!
//! `read_all` and `write_all` are the two loops over these calls, and the theorem of this crate
//! stands on them: a read to the end gives all bytes, or says that they are more than the limit, or
//! passes on a counted fault; a write puts all bytes after what the sink held, or a prefix of them
//! and passes on a counted fault. Both end after as many calls as there are bytes, at most, and
//! one.
//!
//! `read_all` asks for 4,096 bytes at a time, or for as many as the limit leaves and one more, and
//! reads them straight into the growing list. Neither loop tries a failed call again; an interrupted
//! call is one that failed. An empty slice is written with no call of the sink at all.
//!
//! `FirmSource` and `FirmSink` never fail. `MemSource` and `MemSink` give and take in pieces and
//! fail at the calls whose numbers they were made with, and at no others: tests of the layers above
//! are written with them. `StdSource` and `StdSink` are the edge over std's readers and writers,
//! and what passes there is trusted.
//!
//! What contracts cite is in `specs/`: `Told` has the words for what is known and how it changes,
//! `Faults` what a count says, `Scripts` what is seen of the devices in memory.
//! `proofs/Telling.antt` has the lemmas by which several writes are seen as one.

#![tactic(auto)]

mod faults;
mod firm_sink;
mod firm_source;
mod mem_sink;
mod mem_source;
mod reading;
mod schedule;
mod sinks;
mod sources;
mod std_sink;
mod std_source;
mod writing;

pub use faults::{Failed, NoMemory};
pub use firm_sink::FirmSink;
pub use firm_source::FirmSource;
pub use mem_sink::MemSink;
pub use mem_source::MemSource;
pub use reading::{ReadAll, read_all};
pub use sinks::Sink;
pub use sources::Source;
pub use std_sink::StdSink;
pub use std_source::StdSource;
pub use writing::{WriteFault, write_all};

#[cfg(test)]
mod tests;
