//! Tests of frames that are withheld.

use crate::superpages::steps::Step::{
    Departures, FreeFrames, IdlePage, Leave, NoteUse, Open, Reads, Reassemble, Return, SetWithheld,
    State, Withheld,
};
use crate::superpages::steps::passes;
use bc_superpages::PageState;
use std::test::Fail;

#[test]
fn no_page_has_a_withheld_frame_until_it_is_returned(rt: HostRuntime) -> Result<(), Fail> {
    passes(
        rt.alloc(),
        2,
        5,
        &[
            Open(0),
            Withheld(0),
            SetWithheld(3, true),
            Withheld(3),
            FreeFrames(1),
            Open(1),
            FreeFrames(0),
            Leave(0),
            Open(2),
            Return(0, false),
            SetWithheld(4, false),
            SetWithheld(1, true),
            Withheld(1),
            FreeFrames(2),
            Return(0, true),
            Open(3),
            FreeFrames(0),
            SetWithheld(0, true),
            Withheld(0),
            FreeFrames(1),
            Open(4),
            FreeFrames(0),
            Reads(1),
        ],
    )
}

#[test]
fn frames_stay_withheld_while_a_space_is_taken_apart(rt: HostRuntime) -> Result<(), Fail> {
    passes(
        rt.alloc(),
        1,
        4,
        &[
            Open(0),
            Open(1),
            Leave(1),
            SetWithheld(3, true),
            Reassemble(2),
            Withheld(3),
            FreeFrames(0),
            Departures(1),
            State(1, PageState::Gone),
            Return(1, false),
            SetWithheld(2, true),
            Return(1, true),
            SetWithheld(0, true),
            FreeFrames(2),
        ],
    )
}

#[test]
fn the_clock_names_a_page_while_frames_are_free(rt: HostRuntime) -> Result<(), Fail> {
    passes(
        rt.alloc(),
        1,
        4,
        &[
            Open(1),
            Open(2),
            NoteUse(1),
            FreeFrames(2),
            IdlePage(2),
            IdlePage(1),
        ],
    )
}
