//! Tests of tags that are set, and of games that are joined.

use chess_edit::{JoinFault, TagFault, clear_tag, join, set_tag};
use chess_pgn::{Game, read_game, write_game};
use chess_types::Position;

#[test]
#[tactic(auto, unfolding(chess_types::specs::board::Position::start))]
fn tags_are_set(rt: HostRuntime) {
    let alloc = rt.alloc();
    let mut game = Game::new(&alloc, Position::start()).expect(&rt, "memory");
    assert!(rt; set_tag(&alloc, &mut game.tags, b"White", b"Karjakin").is_ok());
    assert!(rt; set_tag(&alloc, &mut game.tags, b"WhiteElo", b"2750").is_ok());
    assert!(rt; game.tag(b"White") == Some(b"Karjakin".as_slice()));
    assert!(rt; game.tag(b"WhiteElo") == Some(b"2750".as_slice()));
    assert!(rt; set_tag(&alloc, &mut game.tags, b"White Elo", b"2750") == Err(TagFault::BadName));
    assert!(rt; set_tag(&alloc, &mut game.tags, b"", b"2750") == Err(TagFault::BadName));
    assert!(rt; set_tag(&alloc, &mut game.tags, b"FEN", b"8/8") == Err(TagFault::OwnTag));
    assert!(rt; set_tag(&alloc, &mut game.tags, b"Site", b"a\nb") == Err(TagFault::BadValue));
    assert!(rt; clear_tag(&alloc, &mut game.tags, b"White").is_ok());
    assert!(rt; clear_tag(&alloc, &mut game.tags, b"WhiteElo").is_ok());
    assert!(rt; clear_tag(&alloc, &mut game.tags, b"Date").is_ok());
    assert!(rt; game.tag(b"White") == Some(b"?".as_slice()));
    assert!(rt; game.tag(b"Date") == Some(b"????.??.??".as_slice()));
    assert!(rt; game.tag(b"WhiteElo") == None);
}

// Whether the first text's game, joined with the second's, has that movetext.
fn joins(rt: &HostRuntime, first: &str, second: &str, wanted: &str) -> bool {
    let alloc = rt.alloc();
    let Ok(Some((mut game, _))) = read_game(&alloc, first.as_bytes()) else {
        return false;
    };
    let Ok(Some((other, _))) = read_game(&alloc, second.as_bytes()) else {
        return false;
    };
    if join(&mut game, &other).is_err() {
        return false;
    }
    match write_game(&alloc, &game) {
        Ok(text) => text.as_slice().ends_with(wanted.as_bytes()),
        Err(_) => false,
    }
}

#[test]
fn games_are_joined(rt: HostRuntime) {
    let game = "1. e4 e5 (1... c5 {Sicilian} 2. Nf3) 2. Nf3 Nc6 1-0";
    let unmoved = "\n\n1. e4 e5 (1... c5 {Sicilian} 2. Nf3) 2. Nf3 Nc6 1-0\n\n";
    // where they part in the main line, in a variation, and at once
    assert!(rt;
        joins(
            &rt,
            game,
            "1. e4 {best} e5 2. Nf3 Nf6 $1 3. Nxe5 {Petrov} *",
            "2. Nf3 Nc6 (2... Nf6 $1 3. Nxe5 {Petrov})\n1-0\n\n"
        )
    );
    assert!(rt;
        joins(
            &rt,
            game,
            "1. e4 c5 2. Nc3 (2. d4) Nc6 *",
            "1. e4 e5 (1... c5 {Sicilian} 2. Nf3 (2. Nc3 Nc6)) 2. Nf3 Nc6 1-0\n\n"
        )
    );
    assert!(rt;
        joins(
            &rt,
            game,
            "1. d4 *",
            "1. e4 (1. d4) 1... e5 (1... c5 {Sicilian} 2. Nf3) 2. Nf3 Nc6 1-0\n\n"
        )
    );
    // longer, no longer, and nothing
    assert!(rt;
        joins(
            &rt,
            game,
            "1. e4 e5 2. Nf3 Nc6 3. Bb5 *",
            "2. Nf3 Nc6 3. Bb5 1-0\n\n"
        )
    );
    assert!(rt; joins(&rt, game, "1. e4 e5 *", unmoved));
    assert!(rt; joins(&rt, game, "*", unmoved));
    assert!(rt; joins(&rt, "*", "1. e4 e5 0-1", "\n\n1. e4 e5 *\n\n"));
}

#[test]
fn other_starts_are_refused(rt: HostRuntime) {
    let alloc = rt.alloc();
    let Ok(Some((mut game, _))) = read_game(&alloc, b"1. e4 *") else {
        panic!(rt; "no game");
    };
    let Ok(Some((other, _))) = read_game(
        &alloc,
        b"[FEN \"8/8/8/8/8/8/K1k5/8 w - - 0 1\"]\n\n1. Ka3 *",
    ) else {
        panic!(rt; "no game");
    };
    assert!(rt; join(&mut game, &other) == Err(JoinFault::Start));
}
