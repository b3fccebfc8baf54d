// A program on the heap, to be copied: a search tree that counts numbers, within far fewer frames than it has pages.
//
// Copy this crate, and change the nodes. A runtime needs three things of the library: a heap (`Heap::open`), a handle for each root slot
// that it works with (`heap.root`), and the operations (`heap.new`, `load`, `link`, ..), each of which passes on why it isn't done by `?`.
// Whatever no root slot leads to is freed at some time. A value is looked at where a slot holds it: `load` copies a field into a slot and
// returns what it is; `who` says what a slot holds.
//
// How large the heap has to be: an object takes a word and one for each field, and lies in a cell of 2, 4, 8, .. or 128 words; a superpage
// has 2,048 words in cells of one size, of one domain. Nodes of four fields lie in cells of 8 words, 256 in a superpage. The frames are at
// least the nursery pages of all lanes and two; with fewer than all pages, some are read back. A larger nursery is emptied less often.
#![tactic(auto)]

use anyhow::{Result, bail};
use sorvekla::{Heap, Limits, Loaded, Root, Value};
use std::alloc::Global;
use std::thread::Threads;

/// The fields of a node.
const KEY: u32 = 0;

const COUNT: u32 = 1;

const LEFT: u32 = 2;

const RIGHT: u32 = 3;

/// The fields of a stack's item.
const ITEM: u32 = 0;

const BELOW: u32 = 1;

/// A search tree on a heap, with the handles that it works with.
#[derive(Drop)]
struct Tree {
    heap: Heap,
    top: Root,
    here: Root,
    next: Root,
    stack: Root,
}

impl Tree {
    /// An empty tree, on a heap of its own.
    fn open(alloc: Global, limits: &Limits) -> Result<Tree> {
        let mut heap = Heap::open(alloc, limits)?;
        let top = heap.root(0, 0)?;
        let here = heap.root(0, 0)?;
        let next = heap.root(0, 0)?;
        let stack = heap.root(0, 0)?;
        Ok(Tree {
            heap,
            top,
            here,
            next,
            stack,
        })
    }

    /// A number in a field of the node that a slot holds. It passes through the slot `next`.
    fn number<R: Threads + Sync>(&mut self, rt: &R, node: Root, field: u32) -> Result<u64> {
        match self.heap.load(rt, node, field, self.next)? {
            Loaded::Num(number) => Ok(number),
            _ => bail!("the field holds no number"),
        }
    }

    /// A new node in the slot `next`.
    fn node<R: Threads + Sync>(&mut self, rt: &R, key: u64) -> Result<()> {
        self.heap.new(rt, self.next, 4)?;
        self.heap.set(rt, self.next, KEY, key)?;
        self.heap.set(rt, self.next, COUNT, 1)?;
        Ok(())
    }

    /// Whether a slot holds a node.
    fn is_node<R: Threads + Sync>(&mut self, rt: &R, root: Root) -> Result<bool> {
        match self.heap.who(rt, root)? {
            Value::Obj(_) => Ok(true),
            _ => Ok(false),
        }
    }

    /// Counts a number once more.
    fn count<R: Threads + Sync>(&mut self, rt: &R, key: u64) -> Result<()> {
        self.heap.copy(rt, self.top, self.here)?;
        if !self.is_node(rt, self.top)? {
            self.node(rt, key)?;
            return Ok(self.heap.copy(rt, self.next, self.top)?);
        }
        for _ in 0..u32::MAX {
            let found = self.number(rt, self.here, KEY)?;
            if found == key {
                let count = self.number(rt, self.here, COUNT)?;
                let more = count.saturating_add(1);
                return Ok(self.heap.set(rt, self.here, COUNT, more)?);
            }
            let side = if key < found { LEFT } else { RIGHT };
            match self.heap.load(rt, self.here, side, self.next)? {
                Loaded::Object => self.heap.copy(rt, self.next, self.here)?,
                _ => {
                    self.node(rt, key)?;
                    return Ok(self.heap.link(rt, self.here, side, self.next)?);
                }
            }
        }
        bail!("the tree is too deep")
    }

    /// Puts what a slot holds on the stack, if it is a node.
    fn push<R: Threads + Sync>(&mut self, rt: &R, node: Root) -> Result<()> {
        if !self.is_node(rt, node)? {
            return Ok(());
        }
        let item = self.heap.root(0, 0)?;
        self.heap.new(rt, item, 2)?;
        self.heap.link(rt, item, ITEM, node)?;
        self.heap.link(rt, item, BELOW, self.stack)?;
        self.heap.copy(rt, item, self.stack)?;
        Ok(self.heap.release(rt, item)?)
    }

    /// How many nodes there are, and how many numbers were counted: each node is taken off the stack, and those below it are put there.
    fn totals<R: Threads + Sync>(&mut self, rt: &R) -> Result<(u64, u64)> {
        let mut nodes = 0u64;
        let mut counted = 0u64;
        self.push(rt, self.top)?;
        for _ in 0..u32::MAX {
            if !self.is_node(rt, self.stack)? {
                return Ok((nodes, counted));
            }
            self.heap.load(rt, self.stack, ITEM, self.here)?;
            self.heap.load(rt, self.stack, BELOW, self.stack)?;
            nodes = nodes.saturating_add(1);
            let count = self.number(rt, self.here, COUNT)?;
            counted = counted.saturating_add(count);
            for side in [LEFT, RIGHT] {
                self.heap.load(rt, self.here, side, self.next)?;
                self.push(rt, self.next)?;
            }
        }
        bail!("the tree has too many nodes")
    }

    /// Forgets all nodes.
    fn clear<R: Threads + Sync>(&mut self, rt: &R) -> Result<()> {
        Ok(self.heap.clear(rt, self.top)?)
    }

    /// Prints what was done on the heap, and what a fail-safe collection leaves of the nodes in cells of eight words.
    fn report<R: Print>(&mut self, rt: &R) -> Result<()> {
        let counters = self.heap.counters();
        println!(rt; "minor collections: {}", counters.minor)?;
        println!(rt; "pages read: {}", counters.reads)?;
        println!(rt; "nodes in cells: {}", self.heap.objects_in_cells(0, 8))?;
        self.heap.failsafe()?;
        println!(rt;
            "after a fail-safe collection: {}",
            self.heap.objects_in_cells(0, 8)
        )?;
        Ok(())
    }
}

fn main(rt: HostRuntime) -> Result<()> {
    let limits = Limits {
        superpages: 24,
        nursery: 2,
        frames: 34,
        ..Limits::default()
    };
    let mut tree = Tree::open(rt.alloc(), &limits)?;
    let mut number = 1u64;
    for round in 0..3 {
        tree.clear(&rt)?;
        for _ in 0..4000 {
            number = number
                .wrapping_mul(6364136223846793005)
                .wrapping_add(1442695040888963407);
            tree.count(&rt, number >> 52)?;
        }
        let (nodes, counted) = tree.totals(&rt)?;
        println!(rt; "tree {round}: {nodes} nodes, {counted} numbers")?;
    }
    tree.report(&rt)
}
