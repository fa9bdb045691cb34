//! A test of the report on a game that ends in mate.

use chess_pgn::read_game;
use chess_report::Report;
use chess_types::Status;

#[test]
fn a_mate(rt: HostRuntime) {
    let alloc = rt.alloc();
    let Ok(Some((game, _))) = read_game(&alloc, b"1. f3 e5 2. g4 Qh4# 1-0") else {
        panic!(rt; "no game");
    };
    let report = Report::of(alloc, &game).expect(&rt, "memory");
    assert!(rt; report.plies == 4 && report.status == Status::Mate && !report.agrees);
}
