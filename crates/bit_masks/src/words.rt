// Words of 64 bits, taken by lanes of four where there are four.
ghost use Rattle.std.specs.Prelude.{◌≡◌, ◌≢◌, if◌then◌else◌, ℕ, ◌+◌, ◌-◌, ◌^◌, ◌<◌, ◌≤◌, length, slice_index, Option, count_ones};
ghost use Rattle.std.specs.Int.{bit_at, bit_not};
ghost use Rattle.std.specs.Int.Bits.{bit_and, bit_or};
ghost use Rattle.std.specs.List.{sum_by};
ghost use Rattle.bit_masks.specs.Masks.{IsNextWord};
ghost use mir.Syntax.{w64};

use std::simd::prelude::*;

/// A word whose lowest `count` bits are 1.
pub fn low_ones(count: usize) -> u64
    requires { count < 64 }
    ensures { result ≡ 2 ^ count - 1 }
{
    (1 << count) - 1
}

/// A word whose bits are all `value`.
pub fn word_of(value: bool) -> u64
    ensures { result ≡ (if value then 2 ^ 64 - 1 else 0) }
{
    if value { u64::MAX } else { 0 }
}

/// The word with one bit made `value`.
pub fn with_bit(word: u64, bit: usize, value: bool) -> u64
    requires { bit < 64 }
    ensures here { bit_at result bit ≡ (if value then 1 else 0) }
    ensures elsewhere { (j : ℕ) → j < 64 → j ≢ bit → bit_at result j ≡ bit_at word j }
{
    if value {
        word | (1 << bit)
    } else {
        word & !(1 << bit)
    }
}

/// How many bits of all the words are 1.
pub fn ones(words: &[u64]) -> usize
    requires { sum_by count_ones words.now < 2 ^ 64 }
    ensures { result ≡ sum_by count_ones words.now }
{
    let mut total = 0;
    for word in words {
        total += word.count_ones() as usize;
    }
    total
}

/// The first word from `start` on that is not 0.
pub fn next_word(words: &[u64], start: usize) -> Option<usize>
    ensures { IsNextWord words.now start result }
{
    for index in start..words.len() {
        if words[index] != 0 {
            return Some(index);
        }
    }
    None
}

pub fn and_words(left: &mut [u64], right: &[u64])
    requires { length left.old ≡ length right.now }
    ensures same_length { length left.new ≡ length left.old }
    ensures each { (k : ℕ) → k < length left.old → slice_index left.new k ≡ bit_and (slice_index left.old k) (slice_index right.now k) }
{
    let mut i = 0;
    while left.len() - i >= 4 {
        let both = u64x4::from_slice(&left[i..]) & u64x4::from_slice(&right[i..]);
        both.copy_to_slice(&mut left[i..]);
        i += 4;
    }
    and_rest(left, right, i);
}

fn and_rest(left: &mut [u64], right: &[u64], start: usize)
    requires { length left.old ≡ length right.now }
    ensures same_length { length left.new ≡ length left.old }
    ensures before { (k : ℕ) → k < start → slice_index left.new k ≡ slice_index left.old k }
    ensures rest { (k : ℕ) → start ≤ k → k < length left.old → slice_index left.new k ≡ bit_and (slice_index left.old k) (slice_index right.now k) }
{
    for i in start..left.len() {
        left[i] &= right[i];
    }
}

pub fn or_words(left: &mut [u64], right: &[u64])
    requires { length left.old ≡ length right.now }
    ensures same_length { length left.new ≡ length left.old }
    ensures each { (k : ℕ) → k < length left.old → slice_index left.new k ≡ bit_or (slice_index left.old k) (slice_index right.now k) }
{
    let mut i = 0;
    while left.len() - i >= 4 {
        let either = u64x4::from_slice(&left[i..]) | u64x4::from_slice(&right[i..]);
        either.copy_to_slice(&mut left[i..]);
        i += 4;
    }
    or_rest(left, right, i);
}

fn or_rest(left: &mut [u64], right: &[u64], start: usize)
    requires { length left.old ≡ length right.now }
    ensures same_length { length left.new ≡ length left.old }
    ensures before { (k : ℕ) → k < start → slice_index left.new k ≡ slice_index left.old k }
    ensures rest { (k : ℕ) → start ≤ k → k < length left.old → slice_index left.new k ≡ bit_or (slice_index left.old k) (slice_index right.now k) }
{
    for i in start..left.len() {
        left[i] |= right[i];
    }
}

pub fn flip_words(words: &mut [u64])
    requires { (k : ℕ) → slice_index words.old k < 2 ^ 64 }
    ensures fit { (k : ℕ) → slice_index words.old k < 2 ^ 64 }
    ensures same_length { length words.new ≡ length words.old }
    ensures each { (k : ℕ) → k < length words.old → slice_index words.new k ≡ bit_not w64 (slice_index words.old k) }
{
    let mut i = 0;
    while words.len() - i >= 4 {
        let flipped = !u64x4::from_slice(&words[i..]);
        flipped.copy_to_slice(&mut words[i..]);
        i += 4;
    }
    flip_rest(words, i);
}

fn flip_rest(words: &mut [u64], start: usize)
    ensures same_length { length words.new ≡ length words.old }
    ensures before { (k : ℕ) → k < start → slice_index words.new k ≡ slice_index words.old k }
    ensures rest { (k : ℕ) → start ≤ k → k < length words.old → slice_index words.new k ≡ bit_not w64 (slice_index words.old k) }
{
    for i in start..words.len() {
        words[i] = !words[i];
    }
}
