// Tests of `top` where it saves an image of a heap or resumes one, by its public calls alone.
//
// Nothing here is for others to call. How a trace is made and run is in `program_workshop`.
//
// - `saving`: what `save` writes, and what it and `resume` refuse
// - `phases`: a run that is resumed after each phase of a trace
// - `frozen`: images with frozen domains
// - `devices`: faults of the devices
// - `equal`: whether what is found is what is wanted
#![tactic(auto)]

#[cfg(test)]
mod devices;
#[cfg(test)]
mod equal;
#[cfg(test)]
mod frozen;
#[cfg(test)]
mod phases;
#[cfg(test)]
mod saving;
