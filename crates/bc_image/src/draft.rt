//! The listing that is being read: what the items so far say.

ghost use Rattle.std.specs.Prelude.{◌≡◌, ℕ, ◌+◌, ◌*◌, ◌^◌, ◌<◌, ◌≤◌, ◌++◌, List, [], ◌∷◌, IfOk, OnOk, Some, None, true, length};
ghost use Rattle.bc_image.specs.Births.{placed, head_at, ShowsHeads, KeepsHeads};
ghost use Rattle.bc_image.specs.Drafts.{ImageDraft, birth_bits, ShowsLists, IsDraft, put, put_at, finished_object, empty_draft};
ghost use Rattle.bc_image.specs.Items.{IsBoundedProgress, IsSmallItem, passes};
ghost use Rattle.bc_image.specs.declared.fault.ImageCause.{ImageCause as Cause};

use crate::births::PLACES;
use crate::fault::ImageCause;
use crate::listing::Cell;
use crate::progress::{Progress, Stage};
use bc_model::Holder;
use bc_word::{Address, Head, unpack_head};
use std::alloc::{AllocError, Global};
use std::mem;

/// A listing that is being read.
#[derive(Drop)]
pub(crate) struct Draft {
    pub progress: Progress,
    pub holders: Vec<Holder>,
    pub births: Vec<u32>,
    pub roots: Vec<u64>,
    pub cells: Vec<Cell>,
    /// The numbers of the items that are heads.
    pub heads: Vec<u32>,
    /// For each of these its birth, and below it its place in that list.
    pub keys: Vec<u64>,
    /// The object that was begun.
    pub head: Head,
    pub fields: Vec<u64>,
}

impl Draft {
    #[tactic(auto, unfolding(crate::specs::Births::keys_from))]
    pub fn new(alloc: Global) -> Self
        ensures lists { ShowsLists result empty_draft }
        ensures heads { ShowsHeads result [] }
    {
        Draft {
            progress: Progress::new(),
            holders: Vec::new(alloc),
            births: Vec::new(alloc),
            roots: Vec::new(alloc),
            cells: Vec::new(alloc),
            heads: Vec::new(alloc),
            keys: Vec::new(alloc),
            head: Head {
                lane: 0,
                serial: 0,
                domain: 0,
                fields: 0,
            },
            fields: Vec::new(alloc),
        }
    }

    /// Puts the object in that was begun.
    fn finish_object(&mut self, alloc: Global) -> Result<(), AllocError>
        ensures lists { (d : ImageDraft) → ShowsLists self.old d → OnOk result (ShowsLists self.new (finished_object d)) }
        ensures heads { OnOk result (KeepsHeads self.old self.new) }
    {
        let fields = mem::replace(&mut self.fields, Vec::new(alloc));
        let address = Address(self.progress.address);
        let head = self.head;
        self.cells.push(Cell {
            address,
            head,
            fields,
        })?;
        Ok(())
    }

    /// Puts a holder in.
    fn put_holder(&mut self, item: u64) -> Result<(), AllocError>
        requires { item < 2 ^ 32 }
        ensures lists { (d : ImageDraft) → ShowsLists self.old d → OnOk result (ShowsLists self.new (put_at Stage.Holder d item)) }
        ensures heads { OnOk result (KeepsHeads self.old self.new) }
    {
        let holder = if item == u64::from(self.progress.setup.lanes) {
            Holder::Frozen
        } else {
            Holder::Lane(item as u32)
        };
        self.holders.push(holder)?;
        Ok(())
    }

    /// Puts in how many objects a lane has made.
    fn put_birth(&mut self, item: u64) -> Result<(), AllocError>
        requires { item < 2 ^ 32 }
        ensures lists { (d : ImageDraft) → ShowsLists self.old d → OnOk result (ShowsLists self.new (put_at Stage.Birth d item)) }
        ensures heads { OnOk result (KeepsHeads self.old self.new) }
    {
        self.births.push(item as u32)?;
        Ok(())
    }

    /// Puts the word of a root slot in.
    fn put_root(&mut self, item: u64) -> Result<(), AllocError>
        ensures lists { (d : ImageDraft) → ShowsLists self.old d → OnOk result (ShowsLists self.new (put_at Stage.Root d item)) }
        ensures heads { OnOk result (KeepsHeads self.old self.new) }
    {
        self.roots.push(item)?;
        Ok(())
    }

    /// Keeps the number of a head, and a key for its birth.
    fn note_head(&mut self, number: u32, birth: u64) -> Result<(), AllocError>
        requires birth { birth < 2 ^ 36 }
        requires room { length self.old.heads.items < 2 ^ 28 }
        ensures lists { (d : ImageDraft) → ShowsLists self.old d → OnOk result (ShowsLists self.new d) }
        ensures heads { (hs : List (ℕ × ℕ)) → ShowsHeads self.old hs → OnOk result (ShowsHeads self.new (hs ++ (number, birth) ∷ [])) }
    {
        let place = self.heads.len() as u64;
        self.keys.push(PLACES * birth + place)?;
        self.heads.push(number)?;
        Ok(())
    }

    /// Begins an object.
    fn begin(&mut self, alloc: Global, item: u64) -> Result<(), AllocError>
        requires { item < 2 ^ 49 }
        ensures lists { (d : ImageDraft) → ShowsLists self.old d → OnOk result (ShowsLists self.new (put_at Stage.Head d item)) }
        ensures heads { OnOk result (KeepsHeads self.old self.new) }
    {
        self.head = unpack_head(item);
        if item % 128 != 0 {
            self.fields.reserve_exact(self.head.fields as usize)?;
            return Ok(());
        }
        self.finish_object(alloc)
    }

    /// Begins an object, and keeps its head.
    fn put_head(&mut self, alloc: Global, number: u32, item: u64) -> Result<(), AllocError>
        requires item { item < 2 ^ 49 }
        requires room { length self.old.heads.items < 2 ^ 28 }
        ensures lists { (d : ImageDraft) → ShowsLists self.old d → OnOk result (ShowsLists self.new (put_at Stage.Head d item)) }
        ensures heads { (hs : List (ℕ × ℕ)) → ShowsHeads self.old hs → OnOk result (ShowsHeads self.new (hs ++ (number, birth_bits item) ∷ [])) }
    {
        self.note_head(number, item / 8192)?;
        self.begin(alloc, item)
    }

    /// Puts a field in.
    fn put_field(&mut self, alloc: Global, item: u64) -> Result<(), AllocError>
        ensures lists { (d : ImageDraft) → ShowsLists self.old d → OnOk result (ShowsLists self.new (put_at Stage.Field d item)) }
        ensures heads { OnOk result (KeepsHeads self.old self.new) }
    {
        self.fields.push(item)?;
        if self.progress.fields != 1 {
            return Ok(());
        }
        self.finish_object(alloc)
    }

    /// Puts an item in that passed.
    fn put_lists(&mut self, alloc: Global, number: u32, item: u64) -> Result<(), AllocError>
        requires room { length self.old.heads.items < 2 ^ 28 }
        requires bounded { IsBoundedProgress self.old.progress }
        requires passed { passes self.old.progress self.old.births.items item ≡ true }
        ensures lists { (d : ImageDraft) → ShowsLists self.old d → OnOk result (ShowsLists self.new (put_at self.old.progress.stage d item)) }
        ensures heads { (hs : List (ℕ × ℕ)) → ShowsHeads self.old hs → OnOk result (ShowsHeads self.new (hs ++ head_at self.old.progress.stage number item)) }
    {
        match self.progress.stage {
            Stage::Holder => self.put_holder(item),
            Stage::Birth => self.put_birth(item),
            Stage::Root => self.put_root(item),
            Stage::Head => self.put_head(alloc, number, item),
            Stage::Field => self.put_field(alloc, item),
            _ => Ok(()),
        }
    }

    /// Takes the item of this number up, or returns the test of its place that it fails. After an error the draft is of no use.
    pub fn take(
        &mut self,
        alloc: Global,
        number: u32,
        item: u64,
    ) -> Result<Option<ImageCause>, AllocError>
        requires draft { (d : ImageDraft) × ShowsLists self.old d × IsDraft d }
        requires room { length self.old.heads.items < 2 ^ 28 }
        ensures lists { (d : ImageDraft) → ShowsLists self.old d → IfOk result (λ r. (r ≡ placed d item) × (r ≡ None → ShowsLists self.new (put d item))) }
        ensures heads { (hs : List (ℕ × ℕ)) → ShowsHeads self.old hs → IfOk result (λ r. r ≡ None → ShowsHeads self.new (hs ++ head_at self.old.progress.stage number item)) }
        ensures failed { IfOk result (λ r. (c : Cause) → r ≡ Some c → self.new ≡ self.old) }
    {
        if !self.progress.passes(&self.births, item) {
            return Ok(Some(self.progress.cause()));
        }
        self.put_lists(alloc, number, item)?;
        self.progress.advance(item);
        Ok(None)
    }
}
