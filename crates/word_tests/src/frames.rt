//! Tests of the pool of frames and of the store.

use crate::equal::same;
use bc_frames::{Frame, FramePool, Opens, Store};
use std::marker::Send;
use std::test::Fail;

#[test]
fn claimed_frames_are_no_longer_free_until_they_are_given_back(
    rt: HostRuntime,
) -> Result<(), Fail> {
    let mut pool = FramePool::new(rt.alloc(), 2)?;
    same(&rt, pool.free(), 2);
    let first = pool.claim().expect(&rt, "a frame is free");
    let second = pool.claim().expect(&rt, "a frame is free");
    assert!(rt; pool.claim().is_none());
    same(&rt, pool.free(), 0);
    pool.give(first);
    same(&rt, pool.free(), 1);
    let again = pool.claim().expect(&rt, "a frame is free");
    pool.give(second);
    pool.give(again);
    same(&rt, pool.free(), 2);
    Ok(())
}

#[test]
fn a_store_gives_back_what_was_put_and_counts_it_once(rt: HostRuntime) -> Result<(), Fail> {
    let mut store = Store::new(rt.alloc(), 2)?;
    let mut page = store.take_blank(1);
    same(&rt, store.reads(), 0);
    same(&rt, page.get(511), 0);
    page.set(511, 15);
    page.write(0, [2, 4].as_slice());
    store.put(1, page);
    let back = store.take_back(1);
    same(&rt, back.get(511), 15);
    same(&rt, back.get(1), 4);
    same(&rt, store.reads(), 1);
    store.put(1, back);
    let blank = store.take_blank(1);
    same(&rt, blank.get(511), 0);
    same(&rt, store.reads(), 1);
    Ok(())
}

#[test]
fn words_tell_which_frames_are_not_free(rt: HostRuntime) -> Result<(), Fail> {
    let mut pool = FramePool::new(rt.alloc(), 66)?;
    same(&rt, pool.word(0), 0);
    same(&rt, pool.word(1), 18446744073709551612);
    same(&rt, pool.word(2), 18446744073709551615);
    pool.set_free(63, false);
    pool.set_free(64, false);
    pool.set_free(64, false);
    same(&rt, pool.word(0), 9223372036854775808);
    same(&rt, pool.word(1), 18446744073709551613);
    same(&rt, pool.free(), 64);
    pool.set_free(63, true);
    same(&rt, pool.word(0), 0);
    assert!(rt; !pool.is_free(64));
    assert!(rt; pool.is_free(65));
    assert!(rt; !pool.is_free(66));
    same(&rt, pool.free(), 65);
    Ok(())
}

#[test]
fn frames_become_free_or_not_by_words(rt: HostRuntime) -> Result<(), Fail> {
    let mut pool = FramePool::new(rt.alloc(), 66)?;
    for number in 0..66 {
        same(
            &rt,
            pool.claim().expect(&rt, "a frame is free").number(),
            number,
        );
    }
    assert!(rt; pool.claim().is_none());
    pool.put_word(1, 1);
    same(&rt, pool.word(0), 18446744073709551615);
    same(&rt, pool.word(1), 18446744073709551613);
    same(&rt, pool.free(), 1);
    pool.put_word(1, 18446744073709551615);
    pool.put_word(2, 0);
    same(&rt, pool.free(), 0);
    pool.put_word(0, 9223372036854775807);
    assert!(rt; pool.is_free(63));
    same(&rt, pool.free(), 1);
    same(
        &rt,
        pool.claim().expect(&rt, "a frame is free").number(),
        63,
    );
    pool.put_word(1, 0);
    same(&rt, pool.word(1), 18446744073709551612);
    assert!(rt; !pool.is_free(66));
    same(&rt, pool.free(), 2);
    Ok(())
}

#[test]
fn a_right_to_a_frame_is_made_from_its_number(rt: HostRuntime) -> Result<(), Fail> {
    let mut pool = FramePool::new(rt.alloc(), 3)?;
    let claimed = pool.claim().expect(&rt, "a frame is free");
    let number = claimed.number();
    assert!(rt; !pool.is_free(number));
    assert!(rt; !pool.is_free(3));
    pool.give(Frame::of(number));
    assert!(rt; pool.is_free(number));
    same(&rt, pool.free(), 3);
    same(&rt, FramePool::empty(rt.alloc()).free(), 0);
    Ok(())
}

#[test]
fn a_box_is_read_where_it_is_opened_and_not_where_it_is_lifted(
    rt: HostRuntime,
) -> Result<(), Fail> {
    let mut store = Store::new(rt.alloc(), 2)?;
    let mut page = store.take_blank(1);
    page.set(7, 15);
    store.lower(1, page.shut());
    let unread = store.lift(1);
    store.lower(1, unread);
    same(&rt, store.reads(), 0);
    let mut opens = Opens::new();
    let mut page = store.lift(1).open(&mut opens);
    same(&rt, page.get(7), 15);
    page.set(7, 16);
    let again = page.shut().open(&mut opens);
    same(&rt, again.get(7), 16);
    store.count(opens);
    same(&rt, store.reads(), 2);
    Ok(())
}

/// Takes what may go to another thread.
fn sent<T: Send>(_value: &T) {}

#[test]
fn boxes_may_go_to_another_thread(rt: HostRuntime) -> Result<(), Fail> {
    let mut store = Store::new(rt.alloc(), 1)?;
    let page = store.take_blank(0);
    sent(&page);
    let shut = page.shut();
    sent(&shut);
    store.lower(0, shut);
    sent(&store);
    Ok(())
}

#[test]
fn pages_of_several_rows_are_used_one_after_another(rt: HostRuntime) -> Result<(), Fail> {
    let mut store = Store::new(rt.alloc(), 130)?;
    for page in 0..130 {
        let mut content = store.take_blank(page);
        same(&rt, content.get(0), 0);
        content.set(0, page as u64);
        store.put(page, content);
    }
    same(&rt, store.take_back(129).get(0), 129);
    same(&rt, store.take_back(0).get(0), 0);
    Ok(())
}
