//! Marks for gates and latches that are due; begin with `Marks`.

ghost use Rattle.std.specs.Prelude.{◌≡◌, ◌≢◌, ◌<◌, ◌≤◌, ◌/◌, ◌+◌, ◌*◌, ◌^◌, ℕ, All, AllPairs, IfOk, false, length, replicate, set, slice_index_or, true};
ghost use Rattle.std.specs.Int.{bit_at};
ghost use Rattle.std.proofs.Props.{props};
ghost use Rattle.sym_step.specs.private.Marks.{AreAsleep, ArePlaces, AreResting, bit_of};
ghost use Rattle.sym_step.specs.private.Readers.{AreMarked, flag_at};

use std::alloc::{AllocError, Global};

/// The number of places of a block.
const BLOCK: usize = 64;

/// A mark for each gate, by number, and behind these one for each latch; and an order of the gates,
/// whose places are cut into blocks of 64, with a word of bits for each block, as are the latches.
/// Where the bit of a place is 0 its gate has no mark, and where that of a latch is 0 the latch has
/// none, so the next mark is found by words. A gate or latch takes a byte and a bit, and a gate 8
/// bytes more.
#[derive(Drop)]
pub struct Marks {
    pub(crate) flags: Vec<bool>,
    pub(crate) order: Vec<u32>,
    /// The place of each gate, by number.
    places: Vec<u32>,
    /// A word for each block of places.
    words: Vec<u64>,
    /// A word for each block of latches.
    latches: Vec<u64>,
    ghost long: { length places.items ≡ length order.items },
    ghost wide: { length order.items ≤ length words.items * 64 },
    ghost placed: { ArePlaces order.items places.items } by { Prim.hlevel props },
    ghost asleep: { AreAsleep flags.items order.items words.items } by { Prim.hlevel props },
    ghost held: { length flags.items ≤ length order.items + length latches.items * 64 },
    ghost resting: { AreResting flags.items (length order.items) latches.items } by { Prim.hlevel props },
}

/// The place of each gate, by number, where the gates have this order.
fn places_of(alloc: Global, order: &[u32]) -> Result<Vec<u32>, AllocError>
    requires inside { All (λ gate. gate < length order.now) order.now }
    requires apart { AllPairs (λ one other. one ≢ other) order.now }
    requires few { length order.now < 2 ^ 32 }
    ensures long { IfOk result (λ places. length places.items ≡ length order.now) }
    ensures places { IfOk result (λ places. ArePlaces order.now places.items) }
{
    let mut places = vec![in alloc; 0u32; order.len()]?;
    for place in 0..order.len() {
        places[order[place] as usize] = place as u32;
    }
    Ok(places)
}

/// The word with this bit as 1.
fn with_bit(word: u64, bit: usize) -> u64
    requires { bit < 64 }
    ensures here { bit_at result bit ≡ 1 }
    ensures others { (k : ℕ) → k ≢ bit → bit_at result k ≡ bit_at word k }
{
    word | (1u64 << bit)
}

/// The word with this bit as 0.
fn without_bit(word: u64, bit: usize) -> u64
    requires { bit < 64 }
    ensures { (k : ℕ) → k < 64 → k ≢ bit → bit_at result k ≡ bit_at word k }
{
    word & !(1u64 << bit)
}

/// The first bit of the word from one on that is 1, and 64 where there is none.
fn first_bit(word: u64, from: usize) -> usize
    requires { from < 64 }
    ensures behind { from ≤ result }
    ensures within { result ≤ 64 }
    ensures clear { (k : ℕ) → from ≤ k → k < result → bit_at word k ≡ 0 }
{
    let rest = word >> from;
    if rest == 0 {
        return BLOCK;
    }
    let found = from + rest.trailing_zeros() as usize;
    found.min(BLOCK)
}

/// Takes so many marks away, the first ones.
fn clear_first(flags: &mut [bool], count: usize)
    ensures long { length flags.new ≡ length flags.old }
    ensures cleared { (k : ℕ) → k < count → flag_at flags.new k ≡ false }
    ensures rest { (k : ℕ) → count ≤ k → flag_at flags.new k ≡ flag_at flags.old k }
{
    let (first, _) = flags.split_at_mut(count.min(flags.len()));
    first.fill(false);
}

impl Marks {
    /// A mark for each of so many gates and latches, where the gates have this order.
    pub fn all(alloc: Global, order: &[u32], count: usize) -> Result<Marks, AllocError>
        requires inside { All (λ gate. gate < length order.now) order.now }
        requires apart { AllPairs (λ one other. one ≢ other) order.now }
        requires few { length order.now < 2 ^ 32 }
        ensures flags { IfOk result (λ marks. marks.flags.items ≡ replicate count true) }
        ensures order { IfOk result (λ marks. marks.order.items ≡ order.now) }
    {
        Ok(Marks {
            flags: vec![in alloc; true; count]?,
            order: order.to_vec(alloc)?,
            places: places_of(alloc, order)?,
            words: vec![in alloc; u64::MAX; order.len() / BLOCK + 1]?,
            latches: vec![in alloc; u64::MAX; count / BLOCK + 1]?,
        })
    }

    /// The same with a mark for each gate and latch.
    pub fn all_marked(self) -> Marks
        ensures flags { result.flags.items ≡ replicate (length self.flags.items) true }
        ensures order { result.order ≡ self.order }
    {
        let mut marks = self;
        marks.words.fill(u64::MAX);
        marks.latches.fill(u64::MAX);
        marks.flags.fill(true);
        marks
    }

    /// Whether a gate or latch has a mark.
    pub fn is_marked(&self, number: usize) -> bool
        requires { number < length self.now.flags.items }
        ensures { result ≡ flag_at self.now.flags.items number }
    {
        self.flags[number]
    }

    /// Puts the bit of a latch.
    fn wake_latch(&mut self, latch: usize)
        ensures flags { self.new.flags ≡ self.old.flags }
        ensures order { self.new.order ≡ self.old.order }
        ensures words { self.new.words ≡ self.old.words }
        ensures awake { latch < length self.old.latches.items * 64
            → bit_of self.new.latches.items latch ≡ 1 }
        ensures long { length self.new.latches.items ≡ length self.old.latches.items }
    {
        let block = latch / BLOCK;
        if block >= self.latches.len() {
            return;
        }
        self.latches[block] = with_bit(self.latches[block], latch % BLOCK);
    }

    /// Takes the bit of a latch that has no mark away.
    fn rest_latch(&mut self, latch: usize)
        requires { flag_at self.old.flags.items (length self.old.order.items + latch) ≡ false }
        ensures flags { self.new.flags ≡ self.old.flags }
        ensures order { self.new.order ≡ self.old.order }
        ensures places { self.new.places ≡ self.old.places }
        ensures words { self.new.words ≡ self.old.words }
    {
        let block = latch / BLOCK;
        if block >= self.latches.len() {
            return;
        }
        self.latches[block] = without_bit(self.latches[block], latch % BLOCK);
    }

    /// Puts the bit at the place of a gate, by its number, or that of a latch.
    fn wake(&mut self, number: usize)
        ensures flags { self.new.flags ≡ self.old.flags }
        ensures order { self.new.order ≡ self.old.order }
        ensures awake { (place : ℕ) → place < length self.old.order.items
            → slice_index_or self.old.order.items place 0 ≡ number
            → bit_of self.new.words.items place ≡ 1 }
        ensures latch { (l : ℕ) → length self.old.order.items + l ≡ number
            → l < length self.new.latches.items * 64
            → bit_of self.new.latches.items l ≡ 1 }
        ensures long { length self.new.latches.items ≡ length self.old.latches.items }
    {
        let gates = self.places.len();
        if number >= gates {
            self.wake_latch(number - gates);
            return;
        }
        let place = self.places[number] as usize;
        let block = place / BLOCK;
        if block >= self.words.len() {
            return;
        }
        self.words[block] = with_bit(self.words[block], place % BLOCK);
    }

    /// Marks a gate or latch, by number, where there is a mark for it. One that is marked is not
    /// looked at further, since the bit at its place is 1.
    pub fn mark(&mut self, number: usize)
        ensures long { length self.new.flags.items ≡ length self.old.flags.items }
        ensures order { self.new.order ≡ self.old.order }
        ensures marked { AreMarked (λ k. number ≢ k) self.old.flags.items self.new.flags.items }
    {
        if number >= self.flags.len() || self.flags[number] {
            return;
        }
        self.wake(number);
        self.flags[number] = true;
    }

    /// Takes the mark of a gate or latch away, where it has one.
    pub fn unmark(&mut self, number: usize)
        ensures long { length self.new.flags.items ≡ length self.old.flags.items }
        ensures order { self.new.order ≡ self.old.order }
        ensures places { self.new.places ≡ self.old.places }
        ensures words { self.new.words ≡ self.old.words }
        ensures unmarked { flag_at self.new.flags.items number ≡ false }
        ensures others { (k : ℕ) → k ≢ number
            → flag_at self.new.flags.items k ≡ flag_at self.old.flags.items k }
    {
        if number >= self.flags.len() {
            return;
        }
        self.flags[number] = false;
        let gates = self.order.len();
        if number >= gates {
            self.rest_latch(number - gates);
        }
    }

    /// The first latch from this one on that has a mark, of so many latches, or their number where
    /// there is none.
    pub fn next_latch(&self, from: usize, count: usize) -> usize
        requires from { from ≤ count }
        requires count { length self.now.order.items + count ≤ length self.now.flags.items }
        ensures behind { from ≤ result }
        ensures within { result ≤ count }
        ensures unmarked { (l : ℕ) → from ≤ l → l < result
            → flag_at self.now.flags.items (length self.now.order.items + l) ≡ false }
    {
        let mut at = from;
        while at < count {
            let block = at / BLOCK;
            let found = block * BLOCK + first_bit(self.latches[block], at % BLOCK);
            let end = ((block + 1) * BLOCK).min(count);
            if found < end {
                return found;
            }
            at = end;
        }
        at
    }

    /// The first place behind the block of a place.
    fn end_of(&self, at: usize) -> usize
        requires { at < length self.now.order.items }
        ensures behind { at < result }
        ensures within { result ≤ length self.now.order.items }
        ensures block { (place : ℕ) → at ≤ place → place < result → place / 64 ≡ at / 64 }
        ensures whole { (place : ℕ) → place < length self.now.order.items
            → place / 64 ≡ at / 64 → place < result }
    {
        let end = (at / BLOCK + 1) * BLOCK;
        end.min(self.order.len())
    }

    /// The first place from this one on in its block of which the bit is 1, or one behind the block
    /// where there is none.
    fn next_in_block(&self, at: usize) -> usize
        requires { at < length self.now.order.items }
        ensures behind { at ≤ result }
        ensures unmarked { (place : ℕ) → at ≤ place → place < result
            → place < length self.now.order.items → place / 64 ≡ at / 64
            → flag_at self.now.flags.items (slice_index_or self.now.order.items place 0) ≡ false }
    {
        let block = at / BLOCK;
        block * BLOCK + first_bit(self.words[block], at % BLOCK)
    }

    /// The first place from this one on whose gate has a mark, or the number of gates where there
    /// is none.
    pub fn next(&self, from: usize) -> usize
        requires { from ≤ length self.now.order.items }
        ensures behind { from ≤ result }
        ensures within { result ≤ length self.now.order.items }
        ensures unmarked { (place : ℕ) → from ≤ place → place < result
            → flag_at self.now.flags.items (slice_index_or self.now.order.items place 0) ≡ false }
    {
        let mut at = from;
        while at < self.order.len() {
            let found = self.next_in_block(at);
            let end = self.end_of(at);
            if found < end {
                return found;
            }
            at = end;
        }
        at
    }

    /// The number of the gate at a place.
    pub fn number_at(&self, place: usize) -> usize
        requires { place < length self.now.order.items }
        ensures { result ≡ slice_index_or self.now.order.items place 0 }
    {
        self.order[place] as usize
    }

    /// Takes the marks of all gates away.
    pub fn clear_gates(&mut self)
        ensures long { length self.new.flags.items ≡ length self.old.flags.items }
        ensures order { self.new.order ≡ self.old.order }
        ensures rest { (k : ℕ) → length self.old.order.items ≤ k
            → flag_at self.new.flags.items k ≡ flag_at self.old.flags.items k }
    {
        clear_first(self.flags.as_mut_slice(), self.order.len());
        self.words.fill(0);
    }
}
