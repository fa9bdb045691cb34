//! Worked rows: of the start and its first moves, with the keys that Polyglot's page gives; of castling, captures en passant, promotions; of a mate, of
//! repetitions, of a game from another position.
use super::common::is_written;
use chess_positions::{Column, Format};

#[test]
fn all_columns(rt: HostRuntime) {
    let expected = "\
game,ply,uci,san,fen,epd,key,repetitions,status,result\r
7,0,,,rnbqkbnr/pppppppp/8/8/8/8/PPPPPPPP/RNBQKBNR w KQkq - 0 1,rnbqkbnr/pppppppp/8/8/8/8/PPPPPPPP/RNBQKBNR w KQkq -,463b96181691fc9c,1,play,*\r
7,1,e2e4,e4,rnbqkbnr/pppppppp/8/8/4P3/8/PPPP1PPP/RNBQKBNR b KQkq e3 0 1,rnbqkbnr/pppppppp/8/8/4P3/8/PPPP1PPP/RNBQKBNR b KQkq -,823c9b50fd114196,1,play,*\r
7,2,d7d5,d5,rnbqkbnr/ppp1pppp/8/3p4/4P3/8/PPPP1PPP/RNBQKBNR w KQkq d6 0 2,rnbqkbnr/ppp1pppp/8/3p4/4P3/8/PPPP1PPP/RNBQKBNR w KQkq -,0756b94461c50fb0,1,play,*\r
7,3,e4e5,e5,rnbqkbnr/ppp1pppp/8/3pP3/8/8/PPPP1PPP/RNBQKBNR b KQkq - 0 2,rnbqkbnr/ppp1pppp/8/3pP3/8/8/PPPP1PPP/RNBQKBNR b KQkq -,662fafb965db29d4,1,play,*\r
7,4,f7f5,f5,rnbqkbnr/ppp1p1pp/8/3pPp2/8/8/PPPP1PPP/RNBQKBNR w KQkq f6 0 3,rnbqkbnr/ppp1p1pp/8/3pPp2/8/8/PPPP1PPP/RNBQKBNR w KQkq f6,22a48b5a8e47ff78,1,play,*\r
";
    assert!(rt;
        is_written(
            &rt,
            &rt.alloc(),
            Format::Csv,
            &Column::ALL,
            b"1. e4 d5 2. e5 f5 *",
            expected
        )
    );
}

/// The keys that http://hgm.nubati.net/book_format.html gives.
#[test]
fn keys_of_polyglot(rt: HostRuntime) {
    let kings = "\
key\r
463b96181691fc9c\r
823c9b50fd114196\r
0756b94461c50fb0\r
662fafb965db29d4\r
22a48b5a8e47ff78\r
652a607ca3f242c1\r
00fdd303c946bdd9\r
";
    assert!(rt;
        is_written(
            &rt,
            &rt.alloc(),
            Format::Csv,
            &[Column::Key],
            b"1. e4 d5 2. e5 f5 3. Ke2 Kf7 *",
            kings
        )
    );
    let target = b"[FEN \"rnbqkbnr/p1pppppp/8/8/PpP4P/8/1P1PPPP1/RNBQKBNR b KQkq c3 0 3\"]\n*";
    assert!(rt;
        is_written(
            &rt,
            &rt.alloc(),
            Format::Csv,
            &[Column::Key],
            target,
            "key\r\n3c8123ea7b067637\r\n"
        )
    );
    let fewer_rights = b"[FEN \"rnbqkbnr/p1pppppp/8/8/P6P/R1p5/1P1PPPP1/1NBQKBNR b Kkq - 0 4\"]\n*";
    assert!(rt;
        is_written(
            &rt,
            &rt.alloc(),
            Format::Csv,
            &[Column::Key],
            fewer_rights,
            "key\r\n5c3f9b829b279560\r\n"
        )
    );
}

/// Castling, a capture en passant, a promotion; the target that can't be captured on, and the one that can.
#[test]
fn moves_of_each_kind(rt: HostRuntime) {
    let castled = "\
uci,san,epd\r
,,r3k2r/8/8/8/8/8/8/R3K2R w KQkq -\r
e1g1,O-O,r3k2r/8/8/8/8/8/8/R4RK1 b kq -\r
e8c8,O-O-O,2kr3r/8/8/8/8/8/8/R4RK1 w - -\r
";
    let text = b"[FEN \"r3k2r/8/8/8/8/8/8/R3K2R w KQkq - 0 1\"]\n1. O-O O-O-O *";
    let columns = [Column::Uci, Column::San, Column::Epd];
    assert!(rt; is_written(&rt, &rt.alloc(), Format::Csv, &columns, text, castled));
    let taken = "\
uci,san,fen,epd\r
,,4k3/1P6/8/8/2p5/8/3P4/4K3 w - - 7 30,4k3/1P6/8/8/2p5/8/3P4/4K3 w - -\r
d2d4,d4,4k3/1P6/8/8/2pP4/8/8/4K3 b - d3 0 30,4k3/1P6/8/8/2pP4/8/8/4K3 b - d3\r
c4d3,cxd3,4k3/1P6/8/8/8/3p4/8/4K3 w - - 0 31,4k3/1P6/8/8/8/3p4/8/4K3 w - -\r
b7b8q,b8=Q+,1Q2k3/8/8/8/8/3p4/8/4K3 b - - 0 31,1Q2k3/8/8/8/8/3p4/8/4K3 b - -\r
";
    let text = b"[FEN \"4k3/1P6/8/8/2p5/8/3P4/4K3 w - - 7 30\"]\n30. d4 cxd3 31. b8=Q+ *";
    let columns = [Column::Uci, Column::San, Column::Fen, Column::Epd];
    assert!(rt; is_written(&rt, &rt.alloc(), Format::Csv, &columns, text, taken));
    // With both pawns gone from the rank the king is in check, so the target is in the FEN alone.
    let kept = "\
fen,epd\r
8/8/8/8/k2p3R/8/4P3/4K3 w - - 0 1,8/8/8/8/k2p3R/8/4P3/4K3 w - -\r
8/8/8/8/k2pP2R/8/8/4K3 b - e3 0 1,8/8/8/8/k2pP2R/8/8/4K3 b - -\r
";
    let text = b"[FEN \"8/8/8/8/k2p3R/8/4P3/4K3 w - - 0 1\"]\n1. e4 *";
    let columns = [Column::Fen, Column::Epd];
    assert!(rt; is_written(&rt, &rt.alloc(), Format::Csv, &columns, text, kept));
}

#[test]
fn repetitions(rt: HostRuntime) {
    let expected = "\
repetitions,status,game\r
1,play,7\r
1,play,7\r
1,play,7\r
1,play,7\r
2,play,7\r
2,play,7\r
2,play,7\r
2,play,7\r
3,play,7\r
";
    let columns = [Column::Repetitions, Column::Status, Column::Game];
    assert!(rt;
        is_written(
            &rt,
            &rt.alloc(),
            Format::Csv,
            &columns,
            b"Nf3 Nf6 Ng1 Ng8 Nf3 Nf6 Ng1 Ng8 1/2-1/2",
            expected
        )
    );
}

/// The main line alone, and a game without moves; rows without columns.
#[test]
fn lines_that_are_left_out(rt: HostRuntime) {
    let main = "\
{\"ply\":0,\"san\":null}
{\"ply\":1,\"san\":\"e4\"}
{\"ply\":2,\"san\":\"c5\"}
";
    let columns = [Column::Ply, Column::San];
    let text = b"1. e4 {a} (1. d4 d5) 1... c5 $1 (1... e5) *";
    assert!(rt; is_written(&rt, &rt.alloc(), Format::Jsonl, &columns, text, main));
    let none = "result,status\r\n1/2-1/2,stalemate\r\n";
    let text = b"[FEN \"7k/5Q2/6K1/8/8/8/8/8 b - - 0 1\"]\n1/2-1/2";
    let columns = [Column::Result, Column::Status];
    assert!(rt; is_written(&rt, &rt.alloc(), Format::Csv, &columns, text, none));
    assert!(rt; is_written(&rt, &rt.alloc(), Format::Jsonl, &[], b"1. e4 *", "{}\n{}\n"));
}

/// Each column has a name by which it is found, and no other text is one.
#[test]
fn names(rt: HostRuntime) {
    for column in &Column::ALL {
        assert!(rt; Column::parse(column.name().as_bytes()) == Some(*column));
    }
    for name in [
        "",
        "Fen",
        "fen ",
        "repetition",
        "repetitionss",
        "sa",
        "epd\0",
    ] {
        assert!(rt; Column::parse(name.as_bytes()).is_none());
    }
}

#[test]
fn a_mate(rt: HostRuntime) {
    let expected = "\
{\"san\":null,\"uci\":null,\"status\":\"play\",\"ply\":0,\"result\":\"0-1\"}
{\"san\":\"f3\",\"uci\":\"f2f3\",\"status\":\"play\",\"ply\":1,\"result\":\"0-1\"}
{\"san\":\"e5\",\"uci\":\"e7e5\",\"status\":\"play\",\"ply\":2,\"result\":\"0-1\"}
{\"san\":\"g4\",\"uci\":\"g2g4\",\"status\":\"play\",\"ply\":3,\"result\":\"0-1\"}
{\"san\":\"Qh4#\",\"uci\":\"d8h4\",\"status\":\"mate\",\"ply\":4,\"result\":\"0-1\"}
";
    let columns = [
        Column::San,
        Column::Uci,
        Column::Status,
        Column::Ply,
        Column::Result,
    ];
    assert!(rt;
        is_written(
            &rt,
            &rt.alloc(),
            Format::Jsonl,
            &columns,
            b"1. f3 e5 2. g4 Qh4# 0-1",
            expected
        )
    );
}
