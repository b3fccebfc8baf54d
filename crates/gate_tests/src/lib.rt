// Tests of runs past gates: threads of a turn are held at named points until others have come, so that each race that a test is about takes
// place in each run of it.
//
// Nothing here is for others to call. How a trace is made and run is in `program_workshop`.
//
// - `lanes`: lanes side by side
// - `pagers`: pagers beside the lanes of a turn and beside one another
// - `reloads`: lanes that bring pages back
// - `markers`: pagers beside the markers of a collection
// - `shapes`: sixteen lanes, second turns, pages in a lane's hands
// - `paying`: turns and markings that run as is likely to pay, as the program runs them
// - `images`: turns of `save` and of `resume`
// - `points`: the points, and who passes them
// - `keeping`: gates that keep threads, and that count
// - `objects`: objects of which few fill a page
// - `equal`: whether what is found is what is wanted
#![tactic(auto)]

#[cfg(test)]
mod equal;
#[cfg(test)]
mod images;
#[cfg(test)]
mod keeping;
#[cfg(test)]
mod lanes;
#[cfg(test)]
mod markers;
#[cfg(test)]
mod objects;
#[cfg(test)]
mod pagers;
#[cfg(test)]
mod paying;
#[cfg(test)]
mod points;
#[cfg(test)]
mod reloads;
#[cfg(test)]
mod shapes;
