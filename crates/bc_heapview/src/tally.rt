//! How many objects of each domain and class the root slots lead to.

ghost use Rattle.std.specs.Prelude.{◌≡◌, ℕ, ◌^◌, ◌<◌, ◌≤◌, ◌++◌, List, length, slice_index_or, IfOk, OnOk};
ghost use Rattle.bc_classes.specs.ClassNumbers.{IsClass};
ghost use Rattle.bc_image.specs.Images.{IsImageListing};
ghost use Rattle.bc_image.specs.Pictures.{PicturesObjects};
ghost use Rattle.bc_model.specs.State.{State};
ghost use Rattle.bc_heapview.specs.Counts.{AreCounts, AreFewCounts, counts_of, domain_counts, pair_counts, superpages_of};
ghost use Rattle.bc_heapview.specs.Tallies.{AreCountable, IsPairTally, tally_at};
ghost use Rattle.bc_heapview.specs.Answers.{IsViewable};
ghost use Rattle.bc_heapview.specs.Searches.{IsSearched, find_at};
ghost use Rattle.bc_heapview.specs.declared.search.Found.{Found};

use crate::indexes::index_of;
use crate::search::{Found, search};
use bc_classes::{CLASSES, cap, class_of};
use bc_image::{Cell, Listing};
use std::alloc::{AllocError, Global};

/// One more than the largest class: a tally has so many numbers for each domain.
const STRIDE: usize = 129;

/// The most domains that a heap has.
const DOMAINS: usize = 64;

/// A domain and a class, how many objects of them the root slots lead to, and how many superpages these take.
#[derive(Clone, Copy, Debug, PartialEq, Eq)]
pub struct Count {
    pub domain: u32,
    /// The size of the cells, in words.
    pub class: u32,
    pub objects: u64,
    pub superpages: u64,
}

/// How many objects of each domain and class the root slots lead to: an entry for each pair that has one, by domain and then
/// by class. It takes a few words of memory for each object and superpage, and time linear in the objects and their words.
pub fn counts(alloc: Global, listing: &Listing) -> Result<Vec<Count>, AllocError>
    requires listing { IsImageListing listing.now }
    ensures counts { (s : State) → PicturesObjects listing.now s → IfOk result (λ v. AreCounts s v.items) }
    ensures few { IfOk result (λ v. AreFewCounts v.items) }
{
    let tally = tally_of(alloc, listing)?;
    let counts = list_counts(alloc, &tally, listing.setup.domains)?;
    Ok(counts)
}

/// For each domain and class how many objects the root slots lead to: the number at `STRIDE` times the domain and the class more.
fn tally_of(alloc: Global, listing: &Listing) -> Result<Vec<u64>, AllocError>
    requires viewable { IsViewable listing.now }
    requires cells { AreCountable listing.now.cells }
    ensures size { IfOk result (λ tally. length tally.items ≡ 8256) }
    ensures small { IfOk result (λ tally. (i : ℕ) → slice_index_or tally.items i 0 < 2 ^ 32) }
    ensures tally { IfOk result (λ tally. (found : List Found) × IsSearched listing.now.roots listing.now.cells found
        × IsPairTally listing.now.cells found tally.items) }
{
    let index = index_of(alloc, &listing.cells, listing.setup.superpages)?;
    let found = search(alloc, &index, &listing.roots, &listing.cells)?;
    let mut tally = vec![in alloc; 0u64; STRIDE * DOMAINS]?;
    add_up(&mut tally, &found, &listing.cells);
    Ok(tally)
}

/// Counts the finds.
fn add_up(tally: &mut [u64], found: &[Found], cells: &[Cell])
    requires size { length tally.old ≡ 8256 }
    requires zeros { (i : ℕ) → slice_index_or tally.old i 0 ≡ 0 }
    requires nodes { (k : ℕ) → k < length found.now → (find_at found.now k).node < length cells.now }
    requires cells { AreCountable cells.now }
    ensures size { length tally.new ≡ 8256 }
    ensures tally { IsPairTally cells.now found.now tally.new }
    ensures small { (i : ℕ) → slice_index_or tally.new i 0 ≤ length found.now }
{
    for find in found {
        let cell = &cells[find.node as usize];
        let head = cell.head;
        let class = class_of(head.fields);
        tally[STRIDE * head.domain as usize + class as usize] += 1;
    }
}

/// The counts of the first domains, by domain and then by class.
fn list_counts(alloc: Global, tally: &[u64], domains: u32) -> Result<Vec<Count>, AllocError>
    requires size { length tally.now ≡ 8256 }
    requires small { (i : ℕ) → slice_index_or tally.now i 0 < 2 ^ 32 }
    requires domains { domains ≤ 64 }
    ensures counts { IfOk result (λ v. v.items ≡ counts_of domains (tally_at tally.now)) }
{
    let mut counts = Vec::new(alloc);
    for domain in 0..domains {
        put_domain(&mut counts, tally, domain)?;
    }
    Ok(counts)
}

/// Puts the counts of a domain at the end, class after class.
fn put_domain(counts: &mut Vec<Count>, tally: &[u64], domain: u32) -> Result<(), AllocError>
    requires size { length tally.now ≡ 8256 }
    requires domain { domain < 64 }
    requires small { (i : ℕ) → slice_index_or tally.now i 0 < 2 ^ 32 }
    ensures counts { OnOk result (counts.new.items ≡ counts.old.items ++ domain_counts domain (tally_at tally.now domain)) }
{
    for class in CLASSES {
        let objects = tally[STRIDE * domain as usize + class as usize];
        put_count(counts, domain, class, objects)?;
    }
    Ok(())
}

/// Puts the count of a pair at the end, if it has an object.
fn put_count(
    counts: &mut Vec<Count>,
    domain: u32,
    class: u32,
    objects: u64,
) -> Result<(), AllocError>
    requires class { IsClass class }
    requires objects { objects < 2 ^ 32 }
    ensures counts { OnOk result (counts.new.items ≡ counts.old.items ++ pair_counts domain class objects) }
{
    if objects == 0 {
        return Ok(());
    }
    let cells = u64::from(cap(class));
    let superpages = (objects + (cells - 1)) / cells;
    counts.push(Count {
        domain,
        class,
        objects,
        superpages,
    })?;
    Ok(())
}

/// How many superpages the counted objects take together.
pub fn superpages_in(counts: &[Count]) -> u64
    requires few { AreFewCounts counts.now }
    ensures { result ≡ superpages_of counts.now }
{
    let mut need = 0;
    for count in counts {
        need += count.superpages;
    }
    need
}
