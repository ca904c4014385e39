ghost use Rattle.std.specs.Prelude.{◌≡◌, ℕ, ◌+◌, ◌%◌, ◌^◌, ◌<◌, ◌≤◌, length, take, drop, IfOk, replicate, slice_set, slice_index_or, false, eqb, not, ◌&&◌, ◌||◌, count_by};
ghost use Rattle.std.specs.Int.{bit_at};
ghost use Rattle.std.specs.Simd.Lanes.{zip2, mask_l};
ghost use Rattle.bit_masks.specs.Masks.{IsNextSet};
ghost use mathlib.Core.List.{map};

use crate::words::{and_words, flip_words, low_ones, next_word, ones, or_words, with_bit, word_of};
use std::alloc::{AllocError, Global};
use std::marker::Model;

/// A list of booleans.
#[derive(Debug, Drop)]
pub struct Mask {
    words: Vec<u64>,
    len: usize,
}

impl Model for Mask {
    ghost use Rattle.std.specs.Prelude.{List, Bool, ℕ, false, ◌≡◌, ◌+◌, ◌/◌, ◌≤◌, length};

    ghost Value = { List Bool };

    ghost use Rattle.bit_masks.specs.Masks.{booleans, is_set};

    ghost view = { λ m. booleans m.words.items m.len };

    // The bits past the last place are 0.
    ghost invariant = { λ m. (length m.words.items ≡ m.len / 64 + 1) × ((i : ℕ) → m.len ≤ i → is_set m.words.items i ≡ false) };
}

impl Mask {
    /// A mask of `len` places, each of them `value`.
    pub fn new(alloc: Global, len: usize, value: bool) -> Result<Mask, AllocError>
        ensures { IfOk result (λ m. m ≡ replicate len value) }
    {
        let whole = len / 64;
        let mut words = vec![in alloc; word_of(value); whole + 1]?;
        words[whole] &= low_ones(len % 64);
        Ok(Mask { words, len })
    }

    /// How many places there are.
    pub fn len(&self) -> usize
        ensures { result ≡ length self.now }
    {
        self.len
    }

    /// Whether the place is set.
    pub fn get(&self, place: usize) -> bool
        requires { place < length self.now }
        ensures { result ≡ slice_index_or self.now place false }
    {
        (self.words[place / 64] >> (place % 64)) & 1 == 1
    }

    /// Makes the place `value`.
    pub fn set(&mut self, place: usize, value: bool)
        requires { place < length self.old }
        ensures { self.new ≡ slice_set self.old place value }
    {
        let word = with_bit(self.words[place / 64], place % 64, value);
        self.words[place / 64] = word;
    }

    /// How many places are set.
    pub fn count(&self) -> usize
        ensures { result ≡ count_by (λ x. x) self.now }
    {
        if self.len == 0 {
            return 0;
        }
        let words = self.words.as_slice();
        ones(words)
    }

    /// The least set place that is at least `start`, or None where there is none.
    pub fn next_set(&self, start: usize) -> Option<usize>
        ensures { IsNextSet self.now start result }
    {
        if start >= self.len {
            return None;
        }
        let words = self.words.as_slice();
        let word = words[start / 64] >> (start % 64);
        if word != 0 {
            return Some(start + word.trailing_zeros() as usize);
        }
        match next_word(words, start / 64 + 1) {
            Some(index) => Some(index * 64 + words[index].trailing_zeros() as usize),
            None => None,
        }
    }

    /// Keeps a place set only where the other's is set too.
    pub fn and_with(&mut self, other: &Mask)
        requires { length self.old ≡ length other.now }
        ensures { self.new ≡ zip2 ◌&&◌ self.old other.now }
    {
        and_words(&mut self.words, &other.words);
    }

    /// Sets each place that the other has set.
    pub fn or_with(&mut self, other: &Mask)
        requires { length self.old ≡ length other.now }
        ensures { self.new ≡ zip2 ◌||◌ self.old other.now }
    {
        or_words(&mut self.words, &other.words);
    }

    /// Sets the places that are not set, and no other.
    pub fn flip(&mut self)
        ensures { self.new ≡ map not self.old }
    {
        let whole = self.len / 64;
        let words = self.words.as_mut_slice();
        flip_words(words);
        self.words[whole] &= low_ones(self.len % 64);
    }

    /// The `count` places from `start` on as the bits of a number, the first the lowest. They lie in one word.
    pub fn bits(&self, start: usize, count: usize) -> u64
        requires { (count < 64) × (start % 64 + count ≤ 64) × (start + count ≤ length self.now) }
        ensures { result ≡ mask_l (take count (drop start self.now)) }
    {
        (self.words[start / 64] >> (start % 64)) & low_ones(count)
    }

    /// Makes the `count` places from `start` on what `bits` says, the first by the lowest bit. They lie in one word.
    pub fn put_bits(&mut self, start: usize, count: usize, bits: u64)
        requires { (count < 64) × (start % 64 + count ≤ 64) × (start + count ≤ length self.old) × (bits < 2 ^ count) }
        ensures same_length { length self.new ≡ length self.old }
        ensures inside { (k : ℕ) → k < count → slice_index_or self.new (start + k) false ≡ eqb (bit_at bits k) 1 }
        ensures before { (k : ℕ) → k < start → slice_index_or self.new k false ≡ slice_index_or self.old k false }
        ensures after { (k : ℕ) → start + count ≤ k → slice_index_or self.new k false ≡ slice_index_or self.old k false }
    {
        let shift = start % 64;
        let word = self.words[start / 64];
        self.words[start / 64] = (word & !(low_ones(count) << shift)) | (bits << shift);
    }
}
