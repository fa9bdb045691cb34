//! Positions made of fields, and the first thing that is wrong with them.

use chess_attack::position;
use chess_fen::read;
use chess_types::{Colour, Draft, Kind, Man, PositionFault, Square};
use std::process::Abort;
use std::test::Fail;

fn man(colour: Colour, kind: Kind) -> Option<Man> {
    Some(Man { colour, kind })
}

/// White's king on e1 and Black's on e8.
fn kings() -> Draft {
    let mut draft = Draft::empty();
    draft.set(Square::E1, man(Colour::White, Kind::King));
    draft.set(Square::E8, man(Colour::Black, Kind::King));
    draft
}

/// Whether the fields have this fault.
fn is_refused(draft: &Draft, fault: PositionFault) -> bool {
    match position(draft) {
        Ok(_) => false,
        Err(found) => found == fault,
    }
}

/// Whether the fields are the position of the FEN.
fn is_position(rt: &impl Abort, draft: &Draft, fen: &str) -> bool {
    let wanted = read(fen.as_bytes()).expect(rt, "a FEN");
    match position(draft) {
        Ok(made) => made == wanted,
        Err(_) => false,
    }
}

#[test]
fn fields_make_a_position(rt: HostRuntime) {
    let mut draft = kings();
    assert!(rt; is_position(&rt, &draft, "4k3/8/8/8/8/8/8/4K3 w - - 0 1"));
    draft.set(Square::H8, man(Colour::Black, Kind::Rook));
    draft.set(Square::E4, man(Colour::White, Kind::Pawn));
    draft.side = Colour::Black;
    draft.rights.black_king = true;
    draft.target = Some(Square::E3);
    draft.clock = 7;
    draft.number = 9;
    assert!(rt; is_position(&rt, &draft, "4k2r/8/8/8/4P3/8/8/4K3 b k e3 7 9"));
    let made = position(&draft).expect(&rt, "a position");
    let mut again = Draft::of(&made);
    assert!(rt; is_position(&rt, &again, "4k2r/8/8/8/4P3/8/8/4K3 b k e3 7 9"));
    again.set(Square::E4, None);
    assert!(rt; is_refused(&again, PositionFault::Target));
}

#[test]
fn the_men_may_be_wrong(rt: HostRuntime) {
    assert!(rt; is_refused(&Draft::empty(), PositionFault::Kings));
    let mut draft = kings();
    draft.set(Square::A1, man(Colour::White, Kind::King));
    assert!(rt; is_refused(&draft, PositionFault::Kings));
    let mut draft = kings();
    draft.set(Square::A8, man(Colour::White, Kind::Pawn));
    assert!(rt; is_refused(&draft, PositionFault::PawnRank));
    let mut draft = kings();
    for number in 8..24u8 {
        draft.set(Square::from_index(number), man(Colour::White, Kind::Pawn));
    }
    assert!(rt; is_refused(&draft, PositionFault::TooManyMen));
}

#[test]
fn the_other_fields_may_be_wrong(rt: HostRuntime) {
    let mut draft = kings();
    draft.rights.white_queen = true;
    assert!(rt; is_refused(&draft, PositionFault::Rights));
    let mut draft = kings();
    draft.target = Some(Square::E6);
    assert!(rt; is_refused(&draft, PositionFault::Target));
    let mut draft = kings();
    draft.number = 0;
    assert!(rt; is_refused(&draft, PositionFault::Counters));
    let mut draft = kings();
    draft.set(Square::E5, man(Colour::White, Kind::Rook));
    assert!(rt; is_refused(&draft, PositionFault::InCheck));
    assert!(rt; draft.setup().is_ok());
}

#[test]
fn position_faults_say_what_they_are(rt: HostRuntime) -> Result<(), Fail> {
    let fault = PositionFault::TooManyMen;
    assert!(rt; format!(in rt.alloc(); "{fault}")?.as_str() == "a side has at most 16 men");
    Ok(())
}
