ghost use Rattle.std.specs.Prelude.{◌≡◌, ◌+◌, ◌*◌, ◌<◌, ◌≤◌, ◌^◌, ◌++◌, ◌∷◌, [], Bool, List, Some, length, not, set, slice_get, take, IfSome, OnOk};
ghost use Rattle.tp_bits.specs.Bits.{AreBits, AreCounted, IsFirstFrom, ones, select};

use crate::tally::{count_new, count_turned, find};
use std::alloc::Global;
use tp_base::NoMemory;

/// How many bits a block has.
const BLOCK: usize = 32;
/// How many bits a row of blocks has.
const ROW: usize = 512;
/// How many bits a group of rows has.
const GROUP: usize = 8192;

/// A growable list of bits, with how many are set in each block, in each row of blocks and in each group of
/// rows, and which is the first that is set.
#[derive(Debug, Drop)]
pub struct Bits {
    bits: Vec<bool>,
    blocks: Vec<u64>,
    rows: Vec<u64>,
    groups: Vec<u64>,
    ones: u64,
    first: Option<usize>,
}

impl Bits {
    /// No bit at all.
    pub fn new(alloc: Global) -> Bits
        ensures { AreBits [] result }
    {
        Bits {
            bits: Vec::new(alloc),
            blocks: Vec::new(alloc),
            rows: Vec::new(alloc),
            groups: Vec::new(alloc),
            ones: 0,
            first: None,
        }
    }

    /// How many bits are set.
    pub fn count_ones(&self) -> u64
        ensures { (bits : List Bool) → AreBits bits self.now → result ≡ ones bits }
    {
        self.ones
    }

    /// The place of the set bit that has so many set bits before it.
    pub fn select(&self, rank: u64) -> Option<usize>
        ensures { (bits : List Bool) → AreBits bits self.now → result ≡ select bits rank }
    {
        let first = self.first?;
        if rank == 0 {
            return Some(first);
        }
        self.search(first / GROUP, rank)
    }

    /// One more bit at the end. After an error the bits aren't used again.
    pub fn push(&mut self, bit: bool) -> Result<(), NoMemory>
        ensures { OnOk result ((bits : List Bool) → AreBits bits self.old → AreBits (bits ++ bit ∷ []) self.new) }
    {
        let place = self.bits.len();
        self.bits.push(bit)?;
        count_new(&mut self.blocks, place / BLOCK, bit)?;
        count_new(&mut self.rows, place / ROW, bit)?;
        count_new(&mut self.groups, place / GROUP, bit)?;
        self.ones = self.ones.saturating_add(u64::from(bit));
        self.first = first_pushed(self.first, place, bit);
        Ok(())
    }

    /// Writes the bit at a place, where there is one.
    pub fn set(&mut self, place: usize, bit: bool)
        ensures { (bits : List Bool) → AreBits bits self.old → AreBits (set bits place bit) self.new }
    {
        if place >= self.bits.len() {
            return;
        }
        if self.bits[place] == bit {
            return;
        }
        self.turn(place, bit);
        self.first = self.first_turned(place, bit);
    }

    // Turns a bit that was the other way, and counts it.
    fn turn(&mut self, place: usize, bit: bool)
        requires { place < length self.old.bits.items }
        ensures counted { (bits : List Bool) → AreCounted bits self.old → slice_get bits place ≡ Some (not bit)
            → AreCounted (set bits place bit) self.new }
        ensures ones { (bits : List Bool) → AreBits bits self.old → slice_get bits place ≡ Some (not bit)
            → self.new.ones ≡ ones (set bits place bit) }
        ensures first { self.new.first ≡ self.old.first }
    {
        self.bits[place] = bit;
        count_turned(&mut self.blocks, place / BLOCK, bit);
        count_turned(&mut self.rows, place / ROW, bit);
        count_turned(&mut self.groups, place / GROUP, bit);
        let ones = self.ones.saturating_add(u64::from(bit));
        self.ones = ones.saturating_sub(u64::from(!bit));
    }

    // The first set bit, after one was turned that was the other way before.
    fn first_turned(&self, place: usize, bit: bool) -> Option<usize>
        ensures { (bits : List Bool) → AreCounted (set bits place bit) self.now → slice_get bits place ≡ Some (not bit)
            → self.now.first ≡ select bits 0 → result ≡ select (set bits place bit) 0 }
    {
        let Some(first) = self.first else {
            return Some(place);
        };
        if first < place {
            return Some(first);
        }
        if bit {
            return Some(place);
        }
        self.next(place)
    }

    // The first set bit, where none is set before a place.
    fn next(&self, place: usize) -> Option<usize>
        ensures { (bits : List Bool) → AreCounted bits self.now → ones (take place bits) ≡ 0 → place < length bits
            → result ≡ select bits 0 }
    {
        let block = place / BLOCK * BLOCK;
        let until = block.saturating_add(BLOCK).min(self.bits.len());
        if let Some(near) = find_first(&self.bits, place, until) {
            return Some(near);
        }
        self.search(place / GROUP, 0)
    }

    // The place of the set bit of a rank, where none is set before a group: its group is looked for, then its
    // row there, its block there, and the bit itself.
    fn search(&self, from: usize, rank: u64) -> Option<usize>
        ensures { (bits : List Bool) → AreCounted bits self.now → ones (take (8192 * from) bits) ≡ 0
            → result ≡ select bits rank }
    {
        let group = find(&self.groups, from, rank)?;
        let first = group.block.saturating_mul(GROUP / ROW);
        let row = find(&self.rows, first, group.rank)?;
        let first = row.block.saturating_mul(ROW / BLOCK);
        let block = find(&self.blocks, first, row.rank)?;
        let first = block.block.saturating_mul(BLOCK);
        find_bit(&self.bits, first, block.rank)
    }
}

/// The first set bit, with one more bit at the end.
fn first_pushed(first: Option<usize>, place: usize, bit: bool) -> Option<usize>
    ensures { (bits : List Bool) → first ≡ select bits 0 → place ≡ length bits → result ≡ select (bits ++ bit ∷ []) 0 }
{
    match first {
        Some(first) => Some(first),
        None => if bit { Some(place) } else { None },
    }
}

/// The first set bit from a place on, up to another.
fn find_first(bits: &[bool], from: usize, until: usize) -> Option<usize>
    requires { until ≤ length bits.now }
    ensures { IfSome result (IsFirstFrom bits.now from) }
{
    for place in from..until {
        if bits[place] {
            return Some(place);
        }
    }
    None
}

/// The place of the set bit of a rank, counted from a place on.
fn find_bit(bits: &[bool], from: usize, rank: u64) -> Option<usize>
    ensures { result ≡ select bits.now (ones (take from bits.now) + rank) }
{
    let mut left = rank;
    for place in from..bits.len() {
        let unit = u64::from(bits[place]);
        if left < unit {
            return Some(place);
        }
        left -= unit;
    }
    None
}
