// Tests of `top` and of an engine, by public calls alone.
//
// Nothing here is for others to call. Tests that hold threads at gates are in `gate_tests`, those of images in `image_tests`; how a trace is made
// and run is in `program_workshop`.
//
// - `rows`: traces and what they print
// - `heaps`: traces that fill their heap
// - `frozen`: domains that are frozen
// - `budgets`: turns that withhold frames
// - `words`: which words there are, and `churn`
// - `devices`: faults of the devices
// - `hostile`: changed inputs, hints that name no page, calls after one that was refused
// - `rooms`: a sink with a known room
// - `engines`: calls of an engine that a run doesn't make
// - `shown`: what the words print
// - `equal`: whether what is found is what is wanted
#![tactic(auto)]

#[cfg(test)]
mod budgets;
#[cfg(test)]
mod devices;
#[cfg(test)]
mod engines;
#[cfg(test)]
mod equal;
#[cfg(test)]
mod frozen;
#[cfg(test)]
mod heaps;
#[cfg(test)]
mod hostile;
#[cfg(test)]
mod rooms;
#[cfg(test)]
mod rows;
#[cfg(test)]
mod shown;
#[cfg(test)]
mod words;
