//! Random lists of events, heard by a session and by a plain machine.
use crate::tests::lines::{Said, go_line, other_line, place_line, place_said};
use crate::tests::plain::Plain;
use chess_key::KeyTable;
use chess_uci::{Event, Session};
use rand_core::utils::NextWord;
use rand_pcg::Pcg64;
use std::alloc::Allocator;
use std::process::Abort;

/// How many lists of events there are, and how many events each has.
const LISTS: u32 = 20_000;

const EVENTS: u32 = 40;

/// What both are given.
#[derive(Clone, Copy)]
enum Given {
    /// A line, and what it asks for.
    Line(&'static [u8], Said),
    Slice,
    Moment(u64),
}

/// Whether both show the same.
fn is_same<A: Allocator>(session: &Session<'_, A>, plain: &Plain<'_, A>) -> bool {
    let shown = (
        session.searching(),
        session.infinite(),
        session.waiting(),
        session.depth_done(),
    );
    session.ended() == plain.ended && shown == plain.shown()
}

/// Whether both reply the same.
fn is_replied<'a, A: Allocator>(
    session: &mut Session<'a, A>,
    plain: &mut Plain<'a, A>,
    given: Given,
) -> bool {
    let (event, wanted) = match given {
        Given::Line(line, said) => (Event::Line(line), plain.hear(said)),
        Given::Slice => (Event::Slice, plain.slice()),
        Given::Moment(moment) => (Event::Moment(moment), plain.reach(moment)),
    };
    session.event(event).as_slice() == wanted.as_slice()
}

/// Both search `number` roots.
fn search<'a, A: Allocator>(
    rt: &impl Abort,
    session: &mut Session<'a, A>,
    plain: &mut Plain<'a, A>,
    number: u64,
) {
    for _ in 0..number {
        if plain.is_deep() {
            return;
        }
        assert!(rt; is_replied(session, plain, Given::Slice));
    }
}

/// A random event other than a slice, at that moment.
fn given_at(moment: u64, kind: u64, pick: u64) -> Given {
    let number = pick % 8;
    match kind {
        6 | 7 => Given::Moment(moment.saturating_add(pick % 40)),
        8 => Given::Moment(pick % 400),
        9 | 10 => Given::Line(place_line(number), place_said(number)),
        11 | 12 => Given::Line(go_line(number), Said::Go(number)),
        _ => {
            let (line, said) = other_line(pick % 16);
            Given::Line(line, said)
        }
    }
}

/// A random event.
fn happen<'a, A: Allocator>(
    rt: &impl Abort,
    session: &mut Session<'a, A>,
    plain: &mut Plain<'a, A>,
    word: u64,
) {
    let pick = word / 16;
    match word % 16 {
        0..=5 => search(rt, session, plain, pick % 24),
        kind => {
            let given = given_at(plain.moment, kind, pick);
            assert!(rt; is_replied(session, plain, given));
        }
    }
    assert!(rt; is_same(session, plain));
}

/// A list of random events; at its end both show the same best of those searched at the last depth.
fn play_a_list<'a, A: Allocator>(
    rt: &impl Abort,
    alloc: &'a A,
    table: &'a KeyTable,
    random: &mut Pcg64,
) {
    let mut session = Session::new(alloc, table);
    let mut plain = Plain::new(alloc, table);
    for _ in 0..EVENTS {
        let word: u64 = random.next_word();
        happen(rt, &mut session, &mut plain, word);
        if plain.ended {
            let replies = session.event(Event::Line(b"isready"));
            assert!(rt; replies.is_empty());
            return;
        }
    }
    assert!(rt; session.so_far() == plain.so_far());
}

#[test]
fn answers_any_order_of_events(rt: HostRuntime) {
    let (alloc, table) = (rt.alloc(), KeyTable::new([1; 768]));
    let mut random = Pcg64::new(47, 53);
    for _ in 0..LISTS {
        play_a_list(&rt, &alloc, &table, &mut random);
    }
}
