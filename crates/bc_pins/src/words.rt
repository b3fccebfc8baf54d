//! The word of a page: which one each state has, and which state a word stands for.

ghost use Rattle.std.specs.Prelude.{◌≡◌, ◌≤◌};
ghost use Rattle.bc_pins.specs.Views.{state_word, home_word};

use bc_superpages::PageState;

/// The word of a page that has no content.
pub const ABSENT: u64 = 0;

/// The word of a page whose box lies in its frame slot.
pub const HOME: u64 = 1;

/// The word of a page whose box lies there and which a write buffer names.
pub const REMEMBERED: u64 = 2;

/// The word of a page that a seat has in hand.
pub const HELD: u64 = 3;

/// The word of a page whose box lies in its store slot.
pub const GONE: u64 = 4;

/// The word of a page in this state.
pub(crate) fn word_of(state: PageState) -> u64
    ensures word { result ≡ state_word state }
{
    match state {
        PageState::Absent => ABSENT,
        PageState::Home => HOME,
        PageState::Remembered => REMEMBERED,
        PageState::Held => HELD,
        PageState::Gone => GONE,
    }
}

/// The state that a page's word stands for.
pub(crate) fn state_of(word: u64) -> PageState
    requires { word ≤ 4 }
    ensures state { state_word result ≡ word }
{
    match word {
        ABSENT => PageState::Absent,
        HOME => PageState::Home,
        REMEMBERED => PageState::Remembered,
        HELD => PageState::Held,
        _ => PageState::Gone,
    }
}

/// The word of a page at home.
pub(crate) fn word_at_home(remembered: bool) -> u64
    ensures { result ≡ home_word remembered }
{
    if remembered { REMEMBERED } else { HOME }
}
