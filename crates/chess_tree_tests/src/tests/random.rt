//! Random edits of a tree, and the same edits of a list of its nodes in order, each with its depth.
use super::trees::{a_move, a_table, add_on, begin, position_here};
use super::walk::{Entry, list_nodes};
use chess_moves::is_legal;
use chess_tree::{Tree, TreeFault};
use chess_types::Move;
use rand_core::utils::NextWord;
use rand_pcg::Pcg64;
use std::alloc::{AllocError, Allocator};
use std::process::Abort;

/// How many edits are made.
const EDITS: u32 = 100_000;

/// Moves of the knights, out and back.
const KNIGHTS: [&str; 8] = [
    "g1f3", "f3g1", "b1c3", "c3b1", "g8f6", "f6g8", "b8c6", "c6b8",
];

/// From how many nodes on more are deleted.
const MANY: usize = 400;

/// Where those below the node at that index end.
fn end_of(list: &[Entry], index: usize) -> usize {
    let Some(entry) = list.get(index) else {
        return list.len();
    };
    let mut end = index.saturating_add(1);
    for other in list.iter().skip(end) {
        if other.depth <= entry.depth {
            return end;
        }
        end = end.saturating_add(1);
    }
    end
}

/// Copies a run of entries.
fn copy<A: Allocator>(
    out: &mut Vec<Entry, &A>,
    list: &[Entry],
    from: usize,
    end: usize,
) -> Result<(), AllocError> {
    match list.get(from..end) {
        Some(run) => out.extend_from_slice(run),
        None => Ok(()),
    }
}

/// The depth of the node whose index is one less; 0 is the root.
fn depth_of(list: &[Entry], at: usize) -> usize {
    if at == 0 {
        return 0;
    }
    match list.get(at.saturating_sub(1)) {
        Some(entry) => entry.depth,
        None => 0,
    }
}

/// The parent: the last one before it that is less deep.
fn parent_of(list: &[Entry], at: usize) -> usize {
    let depth = depth_of(list, at);
    let mut parent = 0usize;
    let mut index = 0usize;
    for entry in list.iter().take(at.saturating_sub(1)) {
        index = index.saturating_add(1);
        if entry.depth < depth {
            parent = index;
        }
    }
    parent
}

/// The child at a place that there is.
fn child_of(list: &[Entry], at: usize, place: u32) -> usize {
    let mut index = at;
    for _ in 0..place {
        index = end_of(list, index);
    }
    index.saturating_add(1)
}

/// Where those below a node end, or all.
fn all_below(list: &[Entry], at: usize) -> usize {
    if at == 0 {
        list.len()
    } else {
        end_of(list, at.saturating_sub(1))
    }
}

/// The list with a node more, the last of those below another.
fn grown<'l, A: Allocator>(
    alloc: &'l A,
    list: &[Entry],
    at: usize,
    played: Move,
) -> Result<Vec<Entry, &'l A>, AllocError> {
    let end = all_below(list, at);
    let mut out = Vec::new(alloc);
    copy(&mut out, list, 0, end)?;
    out.push(Entry {
        depth: depth_of(list, at).saturating_add(1),
        played,
        note: 0,
    })?;
    copy(&mut out, list, end, list.len())?;
    Ok(out)
}

/// Runs of the list, one after the other.
fn runs_of<'l, A: Allocator>(
    alloc: &'l A,
    list: &[Entry],
    runs: &[(usize, usize)],
) -> Result<Vec<Entry, &'l A>, AllocError> {
    let mut out = Vec::new(alloc);
    for (from, end) in runs {
        copy(&mut out, list, *from, *end)?;
    }
    Ok(out)
}

/// The list without a node and those below it.
fn cut<'l, A: Allocator>(
    alloc: &'l A,
    list: &[Entry],
    at: usize,
) -> Result<Vec<Entry, &'l A>, AllocError> {
    let runs = [(0, at.saturating_sub(1)), (all_below(list, at), list.len())];
    runs_of(alloc, list, &runs)
}

/// The list with a node before its siblings.
fn lifted<'l, A: Allocator>(
    alloc: &'l A,
    list: &[Entry],
    at: usize,
) -> Result<Vec<Entry, &'l A>, AllocError> {
    let first = parent_of(list, at);
    let from = at.saturating_sub(1);
    let end = all_below(list, at);
    let runs = [(0, first), (from, end), (first, from), (end, list.len())];
    runs_of(alloc, list, &runs)
}

/// Sets the note of a node; that of the root isn't kept.
fn set_note_of(list: &mut [Entry], at: usize, digit: u8) {
    if at > 0 && at <= list.len() {
        list[at - 1].note = digit;
    }
}

/// Adds a move, where it is legal and the tree isn't too deep: whether it was added.
fn add_legal<A: Allocator>(
    rt: &impl Abort,
    tree: &mut Tree<'_, A>,
    text: &str,
) -> Result<bool, TreeFault> {
    let table = a_table();
    let mut live = position_here(rt, tree, &table);
    assert!(rt; live.position().clock < 100_000 && live.position().number < 100_000);
    if tree.depth() >= 12 || !is_legal(&mut live, a_move(rt, text)) {
        return Ok(false);
    }
    add_on(rt, tree, &mut live, text)?;
    Ok(true)
}

/// A tree, and the same tree as a list.
#[derive(Drop)]
struct Twins<'l, A: Allocator> {
    tree: Tree<'l, A>,
    list: Vec<Entry, &'l A>,
    /// The node at the cursor: 0 for the root, else one more than its index.
    at: usize,
}

impl<'l, A: Allocator> Twins<'l, A> {
    /// Adds one of the knights' moves, where it is legal.
    fn add(&mut self, rt: &impl Abort, alloc: &'l A, pick: u64) -> Result<(), TreeFault> {
        let text = KNIGHTS[(pick % 8) as usize];
        if add_legal(rt, &mut self.tree, text)? {
            let end = all_below(&self.list, self.at);
            self.list = grown(alloc, &self.list, self.at, a_move(rt, text))?;
            self.at = end.saturating_add(1);
        }
        Ok(())
    }

    fn back(&mut self) {
        if self.tree.back().is_ok() {
            self.at = parent_of(&self.list, self.at);
        }
    }

    fn step(&mut self, place: u32) {
        if self.tree.step(place).is_ok() {
            self.at = child_of(&self.list, self.at, place);
        }
    }

    fn promote(&mut self, alloc: &'l A) -> Result<(), TreeFault> {
        if self.tree.promote().is_ok() {
            let first = parent_of(&self.list, self.at).saturating_add(1);
            self.list = lifted(alloc, &self.list, self.at)?;
            self.at = first;
        }
        Ok(())
    }

    fn set_note(&mut self, rt: &impl Abort, digit: u8) -> Result<(), TreeFault> {
        assert!(rt; self.at <= self.list.len());
        set_note_of(self.list.as_mut_slice(), self.at, digit);
        self.tree.set_comment(&[digit])
    }

    fn delete(&mut self, alloc: &'l A) -> Result<(), TreeFault> {
        self.tree.delete()?;
        let parent = parent_of(&self.list, self.at);
        self.list = cut(alloc, &self.list, self.at)?;
        self.at = parent;
        Ok(())
    }

    /// Deletes, where there are many, and now and then.
    fn thin_out(&mut self, alloc: &'l A, pick: u64) -> Result<(), TreeFault> {
        if self.tree.depth() > 0 && (self.list.len() >= MANY || pick % 4 == 0) {
            return self.delete(alloc);
        }
        Ok(())
    }

    /// An edit of both.
    fn edit(&mut self, rt: &impl Abort, alloc: &'l A, word: u64) -> Result<(), TreeFault> {
        let pick = word / 16;
        match word % 16 {
            0..=6 => self.add(rt, alloc, pick),
            7 => {
                self.back();
                Ok(())
            }
            8..=10 => {
                self.step((pick % 3) as u32);
                Ok(())
            }
            11 | 12 => self.promote(alloc),
            13 => self.set_note(rt, b'0' + (pick % 10) as u8),
            _ => self.thin_out(alloc, pick),
        }
    }

    /// Compares the tree with the list.
    fn compare(&self, rt: &impl Abort, alloc: &A) -> Result<(), AllocError> {
        let mut nodes = Vec::new(alloc);
        list_nodes(rt, alloc, &self.tree, &mut nodes)?;
        assert!(rt; nodes.as_slice() == self.list.as_slice());
        Ok(())
    }

    /// Random edits; after each thousand the whole game is compared.
    fn edit_all(&mut self, rt: &impl Abort, alloc: &'l A) -> Result<(), TreeFault> {
        let mut random = Pcg64::new(17, 23);
        for edit in 0..EDITS {
            self.edit(rt, alloc, random.next_word())?;
            if edit % 1_000 == 0 {
                self.compare(rt, alloc)?;
            }
        }
        self.compare_last(rt, alloc)
    }

    /// Compares them at the end, where many nodes are left.
    fn compare_last(&self, rt: &impl Abort, alloc: &A) -> Result<(), TreeFault> {
        assert!(rt; self.list.len() > 100);
        self.compare(rt, alloc)?;
        Ok(())
    }
}

/// A game that begins.
fn begin_both<'l, A: Allocator>(alloc: &'l A) -> Result<Twins<'l, A>, TreeFault> {
    Ok(Twins {
        tree: begin(alloc)?,
        list: Vec::new(alloc),
        at: 0,
    })
}

fn edit_both<A: Allocator>(rt: &impl Abort, alloc: &A) -> Result<(), TreeFault> {
    begin_both(alloc)?.edit_all(rt, alloc)
}

/// After each thousand edits the whole game is compared.
#[test]
fn random_edits(rt: HostRuntime) {
    assert!(rt; edit_both(&rt, &rt.alloc()) == Ok(()));
}
