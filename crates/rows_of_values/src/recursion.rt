//! Types that lead back to themselves through a `Shared`.
ghost use Rattle.std.specs.Prelude.{◌≡◌, ◌≤◌, ◌<◌};

use std::alloc::Global;
use std::marker::Model;
use std::test::Fail;
use vx_shared::Shared;

/// A row for a tree, for a list or for a tower.
pub(crate) fn row(alloc: Global, n: usize) -> Result<String, Fail> {
    match n {
        0 => tree_row(alloc),
        1 => chain_row(alloc),
        _ => tower_row(alloc),
    }
}

/// A tree with shared children.
#[derive(Drop)]
struct Node {
    item: u64,
    kids: Vec<Shared<Node>>,
}

impl Node {
    fn has(&self, item: u64) -> bool {
        if self.item == item {
            return true;
        }
        for kid in &self.kids {
            if kid.as_ref().has(item) {
                return true;
            }
        }
        false
    }
}

/// A tree whose two children are one.
fn tree(alloc: Global) -> Result<Node, Fail> {
    let kids = Vec::new(alloc);
    let leaf = Shared::new(alloc, Node { item: 7, kids })?;
    let mut kids = Vec::new(alloc);
    for _ in 0..2 {
        kids.push(leaf.share())?;
    }
    Ok(Node { item: 1, kids })
}

fn tree_row(alloc: Global) -> Result<String, Fail> {
    let root = tree(alloc)?;
    let [seven, eight] = [root.has(7), root.has(8)];
    Ok(format!(in alloc; "a tree whose two children are one 7: 7 {seven}, 8 {eight}")?)
}

/// A list with shared tails.
#[derive(Drop)]
enum Chain {
    Leaf,
    One(u8, Shared<Chain>),
}

impl Chain {
    fn has(&self, item: u8) -> bool {
        match self {
            Chain::Leaf => false,
            Chain::One(first, rest) => *first == item || rest.as_ref().has(item),
        }
    }
}

/// Two heads of one tail, 1 and 3 before 2.
fn chains(alloc: Global) -> Result<(Chain, Chain), Fail> {
    let end = Shared::new(alloc, Chain::Leaf)?;
    let tail = Shared::new(alloc, Chain::One(2, end))?;
    Ok((Chain::One(1, tail.share()), Chain::One(3, tail)))
}

fn chain_row(alloc: Global) -> Result<String, Fail> {
    let (head, other) = chains(alloc)?;
    tails_row(alloc, head.has(2), other.has(2), other.has(1))
}

fn tails_row(alloc: Global, first: bool, two: bool, one: bool) -> Result<String, Fail> {
    Ok(format!(in alloc; "1 and 3 before one 2: 2 {first} and {two}, 1 behind 3 {one}")?)
}

/// A tower that is seen as its height, which is above that of the tower it stands on.
#[cycle(tower)]
#[derive(Drop)]
struct Tower {
    height: u64,
    below: Option<Shared<Tower>>,
}

impl Model for Tower {
    ghost use Rattle.std.specs.Prelude.{ℕ, ◌<◌, IfSome};
    ghost use Rattle.std.proofs.Common.{arith};

    ghost Value = { ℕ };

    ghost view = { λ t. t.height };

    ghost invariant = { λ t. IfSome t.below (λ below. below < t.height) };

    ghost size = { λ height. height };

    ghost size_decreases = { λ t h. Prim.grind arith };
}

impl Tower {
    /// The height of the lowest tower below it.
    fn ground(&self) -> u64
        ensures { result ≤ self.now }
    {
        match &self.below {
            None => self.height,
            Some(below) => below.as_ref().ground(),
        }
    }
}

/// A tower of this height on one of height 4, where it is higher.
fn tower_of(alloc: Global, height: u64) -> Result<Option<Tower>, Fail> {
    let ground = Tower {
        height: 4,
        below: None,
    };
    let below = Shared::new(alloc, ground)?;
    if below.as_ref().height >= height {
        return Ok(None);
    }
    let below = Some(below);
    Ok(Some(Tower { height, below }))
}

fn tower_row(alloc: Global) -> Result<String, Fail> {
    let tower = tower_of(alloc, 9)?.ok_or("it isn't higher")?;
    let ground = tower.ground();
    Ok(format!(in alloc; "a tower of 9 on one of 4: the ground at {ground}")?)
}
