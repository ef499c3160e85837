//! Numbers in use, as two levels of bits.
//!
//! A word has a bit for each of 64 numbers. A summary has a bit for each of 64 words, which says whether the word has a bit set. So a summary stands
//! for 4,096 numbers. A search looks at a word, and walks only over summaries, of which there are at most 489.
ghost use Rattle.std.specs.Prelude.{◌≡◌, ℕ, ◌+◌, ◌*◌, ◌/◌, ◌<◌, ◌≤◌, ◌≢◌, true, false, cond, nat_eq, [], length, Some, OnOk, IfOk, IsOk};
ghost use Rattle.raw_cells.specs.Numbers.{IsFirstIn, IsLastIn, IsLast, IsNext, AreSummed, is_set, word_at, uses, has_bits};

use std::alloc::{AllocError, Global};
use std::marker::Model;

/// How many bits a word has.
const WORD: u32 = 64;

/// How many words are added at a time, so that memory is seldom asked for.
const STEP: u32 = 32;

/// Numbers in use, up to 2,000,001. A number has room before it comes into use.
///
/// A contract sees the words: bit k of word i says whether number 64 i + k is in use. Only `reach` and `copy` take memory.
#[derive(Drop)]
pub struct Numbers {
    words: Vec<u64>,
    summaries: Vec<u64>,
}

impl Model for Numbers {
    ghost use Rattle.std.specs.Prelude.{List, ℕ};

    ghost Value = { List ℕ };

    ghost use Rattle.raw_cells.specs.Numbers.{AreSummed};

    ghost view = { λ a. a.words.items };

    ghost invariant = { λ a. AreSummed a.words.items a.summaries.items };
}

impl Numbers {
    /// No number, and no room. It takes no memory.
    pub fn new(alloc: Global) -> Self
        ensures { result ≡ [] }
    {
        Self {
            words: Vec::new(alloc),
            summaries: Vec::new(alloc),
        }
    }

    /// Numbers that are equal, in memory of their own.
    pub fn copy(&self, alloc: Global) -> Result<Numbers, AllocError>
        ensures { IfOk result (λ copy. copy ≡ self.now) }
    {
        Ok(Numbers {
            words: self.words.as_slice().to_vec(alloc)?,
            summaries: self.summaries.as_slice().to_vec(alloc)?,
        })
    }

    /// Whether the number is in use.
    pub fn contains(&self, number: u32) -> bool
        ensures { result ≡ uses self.now number }
    {
        contains(&self.words, number)
    }

    /// The number, for which there is room, comes into use. It writes one word, and also a summary if the word was 0.
    pub fn put(&mut self, number: u32)
        requires { number / 64 < length self.old }
        ensures uses { (q : ℕ) → uses self.new q ≡ cond (nat_eq q number) true (uses self.old q) }
        ensures len { length self.new ≡ length self.old }
    {
        put(&mut self.words, &mut self.summaries, number);
    }

    /// The number, for which there is room, goes out of use. It writes one word, and also a summary if the word is 0 then.
    pub fn take(&mut self, number: u32)
        requires { number / 64 < length self.old }
        ensures uses { (q : ℕ) → uses self.new q ≡ cond (nat_eq q number) false (uses self.old q) }
        ensures len { length self.new ≡ length self.old }
    {
        take(&mut self.words, &mut self.summaries, number);
    }

    /// The least number in use above this one, or none. It looks at two words, and at the summaries from that of this number on.
    pub fn after(&self, number: u32) -> Option<u32>
        ensures { IsNext (uses self.now) number result }
    {
        next(&self.words, &self.summaries, number)
    }

    /// The greatest number in use, or 0 if there is none. It looks at one word, and at the summaries from the last one down.
    pub fn last(&self) -> u32
        ensures { IsLast (uses self.now) result }
    {
        last(&self.words, &self.summaries)
    }

    /// Makes the room reach to the number. If it does already, this is one test, and no `Err` comes.
    #[inline(always)]
    pub fn reach(&mut self, number: u32) -> Result<(), AllocError>
        requires { number ≤ 2000001 }
        ensures same { (q : ℕ) → uses self.new q ≡ uses self.old q }
        ensures grows { length self.old ≤ length self.new }
        ensures ok { OnOk result (number / 64 < length self.new) }
        ensures known { number / 64 < length self.old → IsOk result }
    {
        if ((number / WORD) as usize) < self.words.len() {
            return Ok(());
        }
        self.widen(number)
    }

    /// Makes the room reach to a number, and on to the end of its step.
    #[inline(never)]
    fn widen(&mut self, number: u32) -> Result<(), AllocError>
        requires { number ≤ 2000001 }
        ensures same { (q : ℕ) → uses self.new q ≡ uses self.old q }
        ensures grows { length self.old ≤ length self.new }
        ensures ok { OnOk result (number / 64 < length self.new) }
    {
        let index = number / WORD;
        reach(&mut self.summaries, index / WORD + 1)?;
        reach(&mut self.words, index / STEP * STEP + STEP)
    }
}

/// Whether this bit of a word is set.
fn is_set(word: u64, bit: u32) -> bool
    requires { bit < 64 }
    ensures { result ≡ is_set word bit }
{
    (word >> bit) & 1 == 1
}

/// The least bit of a word that is not 0.
fn lowest(word: u64) -> u32
    requires { 0 < word }
    ensures within { result < 64 }
    ensures there { is_set word result ≡ true }
    ensures none { (k : ℕ) → k < result → is_set word k ≡ false }
{
    word.trailing_zeros()
}

/// The greatest bit of a word that is not 0.
fn highest(word: u64) -> u32
    requires { 0 < word }
    ensures within { result < 64 }
    ensures there { is_set word result ≡ true }
    ensures none { (k : ℕ) → result < k → is_set word k ≡ false }
{
    // `63 ^` is `63 -` here; it takes back the `^` with which the machine counts leading zeros
    63 ^ word.leading_zeros()
}

/// Whether the number is in use.
fn contains(words: &[u64], number: u32) -> bool
    ensures { result ≡ uses words.now number }
{
    match words.get((number / WORD) as usize) {
        Some(word) => is_set(*word, number % WORD),
        None => false,
    }
}

/// Sets the bit of the number.
fn set(words: &mut Vec<u64>, number: u32)
    requires { number / 64 < length words.old.items }
    ensures uses { (q : ℕ) → uses words.new.items q ≡ cond (nat_eq q number) true (uses words.old.items q) }
    ensures others { (i : ℕ) → i ≢ number / 64 → word_at words.new.items i ≡ word_at words.old.items i }
    ensures len { length words.new.items ≡ length words.old.items }
{
    let i = (number / WORD) as usize;
    words[i] |= 1u64 << (number % WORD);
}

/// Clears the bit of the number, and answers what is left of its word.
fn clear(words: &mut Vec<u64>, number: u32) -> u64
    requires { number / 64 < length words.old.items }
    ensures left { result ≡ word_at words.new.items (number / 64) }
    ensures uses { (q : ℕ) → uses words.new.items q ≡ cond (nat_eq q number) false (uses words.old.items q) }
    ensures others { (i : ℕ) → i ≢ number / 64 → word_at words.new.items i ≡ word_at words.old.items i }
    ensures len { length words.new.items ≡ length words.old.items }
{
    let i = (number / WORD) as usize;
    let left = words[i] & !(1u64 << (number % WORD));
    words[i] = left;
    left
}

/// Sets the bit of the number, and that of its word if the word was 0.
fn put(words: &mut Vec<u64>, summaries: &mut Vec<u64>, number: u32)
    requires room { number / 64 < length words.old.items }
    requires summed { AreSummed words.old.items summaries.old.items }
    ensures summed { AreSummed words.new.items summaries.new.items }
    ensures uses { (q : ℕ) → uses words.new.items q ≡ cond (nat_eq q number) true (uses words.old.items q) }
    ensures len { length words.new.items ≡ length words.old.items }
{
    let i = number / WORD;
    let before = words[i as usize];
    set(words, number);
    if before == 0 {
        set(summaries, i);
    }
}

/// Clears the bit of the number, and that of its word if the word is 0 then.
fn take(words: &mut Vec<u64>, summaries: &mut Vec<u64>, number: u32)
    requires room { number / 64 < length words.old.items }
    requires summed { AreSummed words.old.items summaries.old.items }
    ensures summed { AreSummed words.new.items summaries.new.items }
    ensures uses { (q : ℕ) → uses words.new.items q ≡ cond (nat_eq q number) false (uses words.old.items q) }
    ensures len { length words.new.items ≡ length words.old.items }
{
    let i = number / WORD;
    let left = clear(words, number);
    if left == 0 {
        clear(summaries, i);
    }
}

/// The first word from `from` on that has bits.
fn first_in(words: &[u64], from: u32) -> Option<u32>
    requires { length words.now ≤ 31264 }
    ensures { IsFirstIn (has_bits words.now) from (length words.now) result }
{
    for i in from..words.len() as u32 {
        if words[i as usize] != 0 {
            return Some(i);
        }
    }
    None
}

/// The last word that has bits. It is mostly the last word of all, which is looked at first.
#[inline(always)]
fn last_in(words: &[u64]) -> Option<u32>
    requires { length words.now ≤ 31264 }
    ensures { IsLastIn (has_bits words.now) 0 (length words.now) result }
{
    let count = words.len() as u32;
    if 0 < count && words[(count - 1) as usize] != 0 {
        return Some(count - 1);
    }
    last_sought(words)
}

/// The last word that has bits, by a walk from the last word down.
fn last_sought(words: &[u64]) -> Option<u32>
    requires { length words.now ≤ 31264 }
    ensures { IsLastIn (has_bits words.now) 0 (length words.now) result }
{
    let mut i = words.len() as u32;
    'down: while 0 < i {
        i -= 1;
        if words[i as usize] != 0 {
            return Some(i);
        }
    }
    None
}

/// The least number in use in the word of this index, which has bits.
fn first_of(words: &[u64], index: u32) -> u32
    requires there { has_bits words.now index ≡ true }
    requires limit { length words.now ≤ 31264 }
    ensures { IsFirstIn (uses words.now) (index * 64) ((index + 1) * 64) (Some result) }
{
    index * WORD + lowest(words[index as usize])
}

/// The greatest number in use in the word of this index, which has bits.
fn last_of(words: &[u64], index: u32) -> u32
    requires there { has_bits words.now index ≡ true }
    requires limit { length words.now ≤ 31264 }
    ensures { IsLastIn (uses words.now) (index * 64) ((index + 1) * 64) (Some result) }
{
    index * WORD + highest(words[index as usize])
}

/// The least number in use above this one in the same word.
fn next_of(words: &[u64], number: u32) -> Option<u32>
    requires there { number / 64 < length words.now }
    requires limit { length words.now ≤ 31264 }
    ensures { IsFirstIn (uses words.now) (number + 1) ((number / 64 + 1) * 64) result }
{
    let above = (words[(number / WORD) as usize] >> (number % WORD)) >> 1;
    if above == 0 {
        return None;
    }
    Some(number + 1 + lowest(above))
}

/// The index of the least word above this one that has bits. It looks at this word's summary and at those above it.
fn next_word(summaries: &[u64], index: u32) -> Option<u32>
    requires there { index / 64 < length summaries.now }
    requires limit { length summaries.now ≤ 489 }
    ensures { IsNext (uses summaries.now) index result }
{
    if let Some(found) = next_of(summaries, index) {
        return Some(found);
    }
    let above = first_in(summaries, index / WORD + 1)?;
    Some(first_of(summaries, above))
}

/// The least number in use above this one. It looks at the word of this number, at its summary and those above it, and at the word that has the least
/// number.
fn next(words: &[u64], summaries: &[u64], number: u32) -> Option<u32>
    requires { AreSummed words.now summaries.now }
    ensures { IsNext (uses words.now) number result }
{
    let i = number / WORD;
    if words.len() <= i as usize {
        return None;
    }
    if let Some(found) = next_of(words, number) {
        return Some(found);
    }
    let above = next_word(summaries, i)?;
    Some(first_of(words, above))
}

/// The greatest number in use, or 0. It looks at the summaries from the last one down, and at the word that has that number.
fn last(words: &[u64], summaries: &[u64]) -> u32
    requires { AreSummed words.now summaries.now }
    ensures { IsLast (uses words.now) result }
{
    match last_in(summaries) {
        Some(summary) => last_of(words, last_of(summaries, summary)),
        None => 0,
    }
}

/// Makes the words at least `count`.
fn reach(words: &mut Vec<u64>, count: u32) -> Result<(), AllocError>
    ensures same { (k : ℕ) → word_at words.new.items k ≡ word_at words.old.items k }
    ensures grows { length words.old.items ≤ length words.new.items }
    ensures limit { (k : ℕ) → count ≤ k → length words.old.items ≤ k → length words.new.items ≤ k }
    ensures ok { OnOk result (count ≤ length words.new.items) }
{
    let wanted = count as usize;
    if words.len() < wanted {
        words.resize(wanted, 0)?;
    }
    Ok(())
}
