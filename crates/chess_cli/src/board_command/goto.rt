//! Paths written as child numbers with periods between them: looked up in the tree, and followed.

ghost use Rattle.std.specs.Prelude.{◌≡◌, ◌∷◌, Ok, bytes_eq, codes, false, option_and_then, option_map};
ghost use Rattle.chess_tree.specs.Forest.{child};
ghost use Rattle.chess_cli.specs.Answers.{Does};
ghost use Rattle.chess_cli.specs.Numbers.{path_in};
ghost use Rattle.chess_cli.specs.steps.Replies.{FindsNode, parts_left, parts_of, path_effect};

use super::numbers::number_in;
use super::refusal::Refusal;
use chess_tree::{Analysis, NodeRef, Tree};
use memchr::memchr;
use std::alloc::Allocator;

// What comes before the first period of a word, and what comes after it.
fn cut(word: &[u8]) -> (&[u8], Option<&[u8]>)
    ensures { parts_of word.now ≡ result.0.now ∷ parts_left (option_map (λ rest. rest.now) result.1) }
{
    match memchr(b'.', word) {
        Some(at) => (&word[..at], Some(&word[at + 1..])),
        None => (word, None),
    }
}

// The child of a node at a place, if there are both.
fn child_of<'t, 'a, A: Allocator>(
    node: Option<NodeRef<'t, 'a, A>>,
    place: u32,
) -> Option<NodeRef<'t, 'a, A>>
    ensures { result ≡ option_and_then (λ n. child place n.below) node.entry }
{
    match node {
        Some(node) => node.child(place),
        None => None,
    }
}

/// Whether the path that a word of child numbers with periods between them writes leads to a node of the tree. Takes no memory: the nodes are looked at as the
/// word is read.
///
/// # Errors
///
/// `Argument` where it writes no path, else `NoSuch` where there is no node, as at the end of each path of more than 20,000 places.
pub fn find_node<A: Allocator>(tree: &Tree<'_, A>, word: &[u8]) -> Result<(), Refusal>
    requires { bytes_eq word.now (codes "-") ≡ false }
    ensures { FindsNode tree.now word.now result }
{
    let mut node = Some(tree.root());
    let mut rest = Some(word);
    while let Some(text) = rest {
        let (part, others) = cut(text);
        let Some(place) = number_in(part) else {
            return Err(Refusal::Argument);
        };
        node = child_of(node, place);
        rest = others;
    }
    match node {
        Some(_) => Ok(()),
        None => Err(Refusal::NoSuch),
    }
}

/// Steps along the path that a word of child numbers with periods between them writes, from the root to a node that is there. Takes no memory.
pub fn follow<A: Allocator>(analysis: &mut Analysis<'_, '_, A>, word: &[u8])
    requires numbers { bytes_eq word.now (codes "-") ≡ false }
    requires there { FindsNode analysis.old word.now (Ok tt) }
    ensures { path_effect analysis.old (path_in word.now) ≡ Does analysis.new }
{
    analysis.start();
    let mut rest = Some(word);
    while let Some(text) = rest {
        let (part, others) = cut(text);
        let Some(place) = number_in(part) else {
            unreachable!();
        };
        let Ok(()) = analysis.step(place) else {
            unreachable!();
        };
        rest = others;
    }
}
