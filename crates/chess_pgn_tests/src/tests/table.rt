//! A table of games, read and written: each row has the export form of its games (PGN 3.2).
ghost use Rattle.std.specs.Prelude.{◌<◌};

use super::common::{UNKNOWN, read_all};
use std::alloc::{AllocError, Allocator};
use std::process::Abort;
use std::test::Fail;

/// The game that the standard shows (PGN 2.3), in export form: what is read of it is written as the same bytes.
const STANDARD: &str = "[Event \"F/S Return Match\"]\n\
[Site \"Belgrade, Serbia JUG\"]\n\
[Date \"1992.11.04\"]\n\
[Round \"29\"]\n\
[White \"Fischer, Robert J.\"]\n\
[Black \"Spassky, Boris V.\"]\n\
[Result \"1/2-1/2\"]\n\
\n\
1. e4 e5 2. Nf3 Nc6 3. Bb5 a6 4. Ba4 Nf6 5. O-O Be7 6. Re1 b5 7. Bb3 d6 8. c3\n\
O-O 9. h3 Nb8 10. d4 Nbd7 11. c4 c6 12. cxb5 axb5 13. Nc3 Bb7 14. Bg5 b4 15.\n\
Nb1 h6 16. Bh4 c5 17. dxe5 Nxe4 18. Bxe7 Qxe7 19. exd6 Qf6 20. Nbd2 Nxd6 21.\n\
Nc4 Nxc4 22. Bxc4 Nb6 23. Ne5 Rae8 24. Bxf7+ Rxf7 25. Nxf7 Rxe1+ 26. Qxe1 Kxf7\n\
27. Qe3 Qg5 28. Qxg5 hxg5 29. b3 Ke6 30. a3 Kd6 31. axb4 cxb4 32. Ra5 Nd5 33.\n\
f3 Bc8 34. Kf2 Bf5 35. Ra7 g6 36. Ra6+ Kc5 37. Ke1 Nf4 38. g3 Nxh3 39. Kd2 Kb5\n\
40. Rd6 Kc5 41. Ra6 Nf2 42. g4 Bd3 43. Re6 1/2-1/2\n\
\n\
";

/// A game as it is written: the tags before its result, that, the tags after it, and the movetext.
type Written = (&'static str, &'static str, &'static str, &'static str);

/// Collections, and the export forms of their games.
const ROWS: &[(&str, &[Written])] = &[
    // Three games, of twelve bytes together.
    (
        "*\n1. e4 *1-0",
        &[
            (UNKNOWN, "*", "", "*"),
            (UNKNOWN, "*", "", "1. e4 *"),
            (UNKNOWN, "1-0", "", "1-0"),
        ],
    ),
    // A promotion to each kind, and with a capture.
    (
        "[SetUp \"1\"]\n\
[FEN \"1n2k3/P7/8/8/8/8/p7/1N2K3 w - - 0 1\"]\n\
1. a8Q (1. a8=R) (1. a8B) (1. a8=N) (1. axb8=Q) a1=Q (1... a1N) (1... axb1=R) *",
        &[(
            UNKNOWN,
            "*",
            "[FEN \"1n2k3/P7/8/8/8/8/p7/1N2K3 w - - 0 1\"]\n[SetUp \"1\"]\n",
            "1. a8=Q (1. a8=R) (1. a8=B) (1. a8=N) (1. axb8=Q+) 1... a1=Q (1... a1=N) (1...\n\
axb1=R+) *",
        )],
    ),
    // Both castlings of both sides.
    (
        "[SetUp \"1\"]\n\
[FEN \"r3k2r/8/8/8/8/8/8/R3K2R w KQkq - 0 1\"]\n\
1.O-O-O(1.0-0 0-0-0)O-O 1/2-1/2",
        &[(
            UNKNOWN,
            "1/2-1/2",
            "[FEN \"r3k2r/8/8/8/8/8/8/R3K2R w KQkq - 0 1\"]\n[SetUp \"1\"]\n",
            "1. O-O-O (1. O-O O-O-O) 1... O-O 1/2-1/2",
        )],
    ),
    // En passant, a capture and a mate.
    (
        "1. e4 Nf6 2. e5 d5 3. exd6 exd6 *\n\
1. f3 e5 2. g4 Qh4 0-1",
        &[
            (UNKNOWN, "*", "", "1. e4 Nf6 2. e5 d5 3. exd6 exd6 *"),
            (UNKNOWN, "0-1", "", "1. f3 e5 2. g4 Qh4# 0-1"),
        ],
    ),
    // En passant from a target that a FEN names.
    (
        "[SetUp \"1\"]\n\
[FEN \"4k3/8/8/2pP4/8/8/8/4K3 w - c6 0 2\"]\n\
dxc6 *",
        &[(
            UNKNOWN,
            "*",
            "[FEN \"4k3/8/8/2pP4/8/8/8/4K3 w - c6 0 2\"]\n[SetUp \"1\"]\n",
            "2. dxc6 *",
        )],
    ),
    // Origins distinguished by the file.
    (
        "[SetUp \"1\"]\n\
[FEN \"4k3/8/8/8/8/5N2/8/1N2K3 w - - 0 1\"]\n\
Nbd2 (Nfd2) *",
        &[(
            UNKNOWN,
            "*",
            "[FEN \"4k3/8/8/8/8/5N2/8/1N2K3 w - - 0 1\"]\n[SetUp \"1\"]\n",
            "1. Nbd2 (1. Nfd2) *",
        )],
    ),
    // By the rank.
    (
        "[SetUp \"1\"]\n\
[FEN \"4k3/8/8/R7/8/8/8/R3K3 w - - 0 1\"]\n\
R1a3 (R5a3) *",
        &[(
            UNKNOWN,
            "*",
            "[FEN \"4k3/8/8/R7/8/8/8/R3K3 w - - 0 1\"]\n[SetUp \"1\"]\n",
            "1. R1a3 (1. R5a3) *",
        )],
    ),
    // By the square.
    (
        "[SetUp \"1\"]\n\
[FEN \"8/8/1k6/8/4Q2Q/8/8/K6Q w - - 0 1\"]\n\
Qh4e1 (Qe4e1) (Qh1e1) *",
        &[(
            UNKNOWN,
            "*",
            "[FEN \"8/8/1k6/8/4Q2Q/8/8/K6Q w - - 0 1\"]\n[SetUp \"1\"]\n",
            "1. Qh4e1 (1. Qee1) (1. Q1e1) *",
        )],
    ),
    // Moves by their squares, and with needless signs.
    (
        "1.e2e4 e7e5 2.Ng1f3 Nb8c6 3.Bf1b5+ a7a6# 4.Bb5xc6 *",
        &[(UNKNOWN, "*", "", "1. e4 e5 2. Nf3 Nc6 3. Bb5 a6 4. Bxc6 *")],
    ),
    // Numbers above 999.
    (
        "[SetUp \"1\"]\n\
[FEN \"4k3/8/8/8/8/8/8/4K3 b - - 0 1000\"]\n\
1000... Kd8 1001. Kd1 Ke8 99999. Ke1 *",
        &[(
            UNKNOWN,
            "*",
            "[FEN \"4k3/8/8/8/8/8/8/4K3 b - - 0 1000\"]\n[SetUp \"1\"]\n",
            "1000... Kd8 1001. Kd1 Ke8 1002. Ke1 *",
        )],
    ),
    // Each kind of annotation and of comment, and a hidden line.
    (
        "%1. d4 *\n\
{first} 1. e4! {a\n\
 b} e5? 2. Nf3!! Nc6?? 3. Bb5!? a6?! 4. Ba4 $10 $0 Nf6 $255 ; rest } of\n\
%{\n\
5. O-O {} 0-1",
        &[(
            UNKNOWN,
            "0-1",
            "",
            "{first} 1. e4 $1 {a b} 1... e5 $2 2. Nf3 $3 2... Nc6 $4 3. Bb5 $5 3... a6 $6 4.\n\
Ba4 $10 $0 4... Nf6 $255 {rest ) of} 5. O-O 0-1",
        )],
    ),
    // Variations within one another, before and after a comment.
    (
        "1. e4 (1. d4 d5 (1... Nf6 2. c4) 2. c4) {k} (1. c4 {m}) e5 *",
        &[(
            UNKNOWN,
            "*",
            "",
            "1. e4 {k} (1. d4 d5 (1... Nf6 2. c4) 2. c4) (1. c4 {m}) 1... e5 *",
        )],
    ),
    // Tags in any order, a long value, escapes, a name twice, and SetUp 0.
    (
        "[Zed \"1\"][Black \"B \\\"b\\\" \\\\\"]\n\
[Result \"0-1\"]\n\
%x\n\
[White \"aaaaaaaaaaaaaaaaaaaaaaaaaaaaaaaaaaaaaaaaaaaaaaaaaaaaaaaaaaaaaaaaaaaaaaaaaaaaaaaaaaaaaaaaaaaaaaaaaaaaaaaaaaaaaaaaaaaaaaaaaaaaaaaaaaaaaaaaaaaaaaaaaaaaaaaaaaaaaaaaaaaaaaaaaaaaaaaaaaaaaaaaaaaaaaaaaaaaaaaaaaaaaaaaaaaaaaaaaaaaaaaaaaaaaaaaaaaaaaaaaaaaaaaaaaaaaaaaaaaaaaaaaaaaaaaaaaaaaaaaaaaaaaaaaaaaaaaaaaaa\"] [White \"w\"]\n\
[Round \"3.1\"]\n\
[Date \"2001.??.??\"]\n\
[Site \"x\\y\"] [ Event\"E\" ]\n\
[ECO \"C20\"][SetUp \"0\"]\n\
[FEN \"8/8/8/8/8/8/8/8 w - - 0 1\"]\n\
1-0",
        &[(
            "[Event \"E\"]\n\
[Site \"x\\\\y\"]\n\
[Date \"2001.??.??\"]\n\
[Round \"3.1\"]\n\
[White \"aaaaaaaaaaaaaaaaaaaaaaaaaaaaaaaaaaaaaaaaaaaaaaaaaaaaaaaaaaaaaaaaaaaaaaaaaaaaaaaaaaaaaaaaaaaaaaaaaaaaaaaaaaaaaaaaaaaaaaaaaaaaaaaaaaaaaaaaaaaaaaaaaaaaaaaaaaaaaaaaaaaaaaaaaaaaaaaaaaaaaaaaaaaaaaaaaaaaaaaaaaaaaaaaaaaaaaaaaaaaaaaaaaaaaaaaaaaaaaaaaaaaaaaaaaaaaaaaaaaaaaaaaaaaaaaaaaaaaaaaaaaaaaaaaaaaaaaaaaaa\"]\n\
[Black \"B \\\"b\\\" \\\\\"]\n\
",
            "1-0",
            "[ECO \"C20\"]\n[Zed \"1\"]\n",
            "1-0",
        )],
    ),
    // How games end: each marker, the next tag, and the end.
    (
        "1-0 0-1 1/2-1/2 * e4 [Event \"x\"] d4",
        &[
            (UNKNOWN, "1-0", "", "1-0"),
            (UNKNOWN, "0-1", "", "0-1"),
            (UNKNOWN, "1/2-1/2", "", "1/2-1/2"),
            (UNKNOWN, "*", "", "*"),
            (UNKNOWN, "*", "", "1. e4 *"),
            (
                "[Event \"x\"]\n[Site \"?\"]\n[Date \"????.??.??\"]\n[Round \"?\"]\n[White \"?\"]\n[Black \"?\"]\n",
                "*",
                "",
                "1. d4 *",
            ),
        ],
    ),
    // No game, and white alone.
    ("", &[]),
    // White alone.
    (
        "\u{feff} \t\r\n\
%x\n\
",
        &[],
    ),
];

/// In pieces of that size the input has these games, and no fault.
fn assert_written<A: Allocator>(
    rt: &impl Abort,
    alloc: &A,
    input: &[u8],
    wanted: &[u8],
    piece: usize,
) -> Result<(), AllocError>
    requires { 0 < piece }
{
    let (text, fault) = read_all(alloc, input, piece)?;
    assert!(rt; fault.is_none(), "{piece}: {wanted:?}");
    assert!(rt; text.as_slice() == wanted, "{piece}: {wanted:?}");
    Ok(())
}

/// The games are written so, and what is written is read as it is, however much is read at once.
fn assert_row<A: Allocator>(
    rt: &impl Abort,
    alloc: &A,
    input: &[u8],
    wanted: &[u8],
) -> Result<(), AllocError> {
    assert_written(rt, alloc, input, wanted, 1)?;
    assert_written(rt, alloc, input, wanted, 4_096)?;
    assert_written(rt, alloc, input, wanted, 65_536)?;
    assert_written(rt, alloc, wanted, wanted, 1)?;
    assert_written(rt, alloc, wanted, wanted, 4_096)?;
    assert_written(rt, alloc, wanted, wanted, 65_536)
}

/// Appends a game as it is written.
fn push_game<A: Allocator>(out: &mut Vec<u8, A>, game: Written) -> Result<(), AllocError> {
    let (known, result, others, movetext) = game;
    for part in [
        known,
        "[Result \"",
        result,
        "\"]\n",
        others,
        "\n",
        movetext,
        "\n\n",
    ] {
        out.extend_from_slice(part.as_bytes())?;
    }
    Ok(())
}

/// Each collection of the table, and all of them in one, with whitespace between that is longer than a read.
fn assert_rows<A: Allocator>(rt: &impl Abort, alloc: &A) -> Result<(), AllocError> {
    assert_row(rt, alloc, STANDARD.as_bytes(), STANDARD.as_bytes())?;
    let mut all = Vec::new(alloc);
    let mut wanted = Vec::new(alloc);
    all.extend_from_slice(STANDARD.as_bytes())?;
    wanted.extend_from_slice(STANDARD.as_bytes())?;
    for (input, games) in ROWS {
        let mut text = Vec::new(alloc);
        for game in *games {
            push_game(&mut text, *game)?;
        }
        assert_row(rt, alloc, input.as_bytes(), text.as_slice())?;
        for _ in 0..5_000 {
            all.push(b' ')?;
        }
        all.extend_from_slice(text.as_slice())?;
        wanted.extend_from_slice(text.as_slice())?;
    }
    for _ in 0..5_000 {
        all.push(b' ')?;
    }
    assert_row(rt, alloc, all.as_slice(), wanted.as_slice())
}

#[test]
fn games_are_read_and_written(rt: HostRuntime) -> Result<(), Fail> {
    assert_rows(&rt, &rt.alloc())?;
    Ok(())
}
