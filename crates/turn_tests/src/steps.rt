//! Tests as lists of steps. A test's own function then has one call, however many steps there are: a proof of many calls in a row would carry
//! all facts of those before each, and all values that they left.

use std::test::Fail;

/// What steps are done on.
pub(crate) trait Trial {
    /// A call that is to go well, or what is to be found.
    type Step;

    /// Does a step. Did it go as the step says?
    fn goes(&mut self, step: &Self::Step) -> bool;
}

/// Does the steps of a list one after another. Fails at the first one that doesn't go as it says.
pub(crate) fn passes_on<T: Trial>(
    trial: &mut T,
    list: &str,
    steps: &[T::Step],
) -> Result<(), Fail> {
    let mut number: u32 = 1;
    for step in steps {
        if !trial.goes(step) {
            return Err(Fail::new(format_args!("{list}: step {number} goes wrong")));
        }
        number = number.saturating_add(1);
    }
    Ok(())
}
