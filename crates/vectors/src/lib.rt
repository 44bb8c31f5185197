// Reading a list of stored answers, as compare/ writes it: a first line that says how the list was
// made, then words of 16 hexadecimal digits, each followed by one space or line end. A word is the
// 64 bits of a number or of a binary64.
#![tactic(auto)]

ghost use Rattle.std.specs.Prelude.{◌%◌, map, ◌≡◌, ◌≢◌, ◌⊎◌, ℕ, ◌+◌, ◌*◌, ◌^◌, ◌≤◌, ◌<◌, pos, get_or, length, IfOk, IfErr, OnOk, OnErr, vec_len};
ghost use Rattle.std.specs.Int.{w64};
ghost use Rattle.std.proofs.Common.{to_z};
ghost use Rattle.vectors.specs.declared.Unread.TheVariants.{Malformed};
ghost use Rattle.vectors.specs.Words.{body_of, digit_of, hex_of, word_at};

use std::alloc::{AllocError, AllocFailed, Global};
use std::array;

// The bytes of a word's digits.
const DIGITS: usize = 16;

// The bytes of a word and of what follows it.
pub const STEP: usize = 17;

// The most readings that a case has.
pub const MOST: usize = 64;

// What ends a line.
const LINE_END: u8 = b'\n';

// Where the words begin: after the first line's end, or at the text's end where it has none.
pub fn body(text: &[u8]) -> usize
    ensures { result ≡ body_of text.now }
{
    text.iter()
        .position(|b| *b == LINE_END)
        .map_or(text.len(), |i| i + 1)
}

// The word whose digits begin at a byte, and 0 where the text ends before its sixteenth digit. This and the three functions
// below that read a text at a byte stand apart from `Cursor`, whose methods can fail.
pub fn word(text: &[u8], at: usize) -> u64
    ensures { result ≡ word_at text.now at }
{
    let n = text.len();
    if n < DIGITS || n - DIGITS < at {
        return 0;
    }
    hex(&text[at..at + DIGITS])
}

// The number that hexadecimal digits spell.
pub fn hex(digits: &[u8]) -> u64
    ensures { result ≡ hex_of digits.now }
{
    digits
        .iter()
        .fold(0, |w, b| w % 0x1000_0000_0000_0000 * 16 + digit(*b))
}

// A digit's value, 0 to 15.
fn digit(b: u8) -> u64
    ensures { (result ≡ digit_of b) × (result ≤ 15) }
{
    let d = u64::from(b);
    if d <= 57 { d % 16 } else { (d + 9) % 16 }
}

// The signed number whose two's complement a word is.
pub fn signed(w: u64) -> i64
    ensures { result ≡ to_z w64 w }
{
    w.cast_signed()
}

// The word that stands k words after a byte, and 0 where the text ends before its sixteenth digit.
pub fn nth_word(text: &[u8], at: usize, k: usize) -> u64
    ensures { result ≡ word_at text.now (at + 17 * k) }
{
    // No text is so long that it has a word where the sum stops.
    word(text, at.saturating_add(STEP.saturating_mul(k)))
}

// The N words from a byte on, and 0 for each that the text ends before.
pub fn words_at<const N: usize>(text: &[u8], at: usize) -> [u64; N]
    ensures { (k : ℕ) → k < N → get_or result k 0 ≡ word_at text.now (at + 17 * k) }
{
    array::from_fn(|k| nth_word(text, at, k))
}

// The same words as signed numbers.
pub fn numbers_at<const N: usize>(text: &[u8], at: usize) -> [i64; N]
    ensures { (k : ℕ) → k < N → get_or result k (pos 0) ≡ to_z w64 (word_at text.now (at + 17 * k)) }
{
    array::from_fn(|k| signed(nth_word(text, at, k)))
}

// What `of` answers at each number below n.
fn list_of<T: Drop, F: Fn(usize) -> T>(n: usize, of: F, alloc: Global) -> Result<Vec<T>, AllocError>
    requires { F.IsAlwaysCallable of }
    ensures size { IfOk result (λ xs. vec_len xs ≡ n) }
    ensures by_index { IfOk result (λ xs. (k : ℕ) (d : T) → k < n → F.post of k (get_or xs.items k d)) }
{
    // Of `map(of)` the check does not find that `of` may be called for each number.
    (0..n).map(|k| of(k)).collect(alloc)
}

// Why the next word of a list, or a case, is not read.
#[derive(Debug, Drop)]
pub enum Unread {
    // The text ends before it, or a number is none that may stand there.
    Malformed,
    // There is no memory for what it holds.
    OutOfMemory(AllocError),
}

impl From<AllocError> for Unread {
    ghost from_gives = { λ _ e. e ≢ Malformed };

    fn from(error: AllocError) -> Self {
        Unread::OutOfMemory(error)
    }
}

impl<T: Drop> From<AllocFailed<T>> for Unread {
    ghost from_gives = { λ _ e. e ≢ Malformed };

    fn from(error: AllocFailed<T>) -> Self {
        Unread::OutOfMemory(AllocError::from(error))
    }
}

// The words of a text, read one after the other: the next one begins at a byte of it.
#[derive(Drop)]
pub struct Cursor<'a> {
    pub text: &'a [u8],
    pub at: usize,
    pub alloc: Global,
    ghost within: { at ≤ length text.now },
}

impl<'a> Cursor<'a> {
    // The words from the text's first byte on.
    pub fn new(text: &'a [u8], alloc: Global) -> Self
        ensures { (result.text.now ≡ text.now) × (result.at ≡ 0) }
    {
        Cursor { text, at: 0, alloc }
    }

    // Passes over the next n words, and returns the byte where they begin.
    pub fn pass(&mut self, n: usize) -> Result<usize, Unread>
        ensures kept { self.new.text.now ≡ self.old.text.now }
        ensures begin { IfOk result (λ at. at ≡ self.old.at) }
        ensures moved { OnOk result (self.new.at ≡ self.old.at + 17 * n) }
        ensures end { OnErr result (length self.old.text.now < self.old.at + 17 * n) }
    {
        let at = self.at;
        if (self.text.len() - at) / STEP < n {
            return Err(Unread::Malformed);
        }
        self.at += STEP * n;
        Ok(at)
    }

    // The next N words.
    pub fn array<const N: usize>(&mut self) -> Result<[u64; N], Unread>
        ensures kept { self.new.text.now ≡ self.old.text.now }
        ensures by_index { IfOk result (λ xs. (k : ℕ) → k < N → get_or xs k 0 ≡ word_at self.old.text.now (self.old.at + 17 * k)) }
        ensures moved { OnOk result (self.new.at ≡ self.old.at + 17 * N) }
        ensures end { OnErr result (length self.old.text.now < self.old.at + 17 * N) }
    {
        let at = self.pass(N)?;
        Ok(words_at(self.text, at))
    }

    // The next word.
    pub fn word(&mut self) -> Result<u64, Unread>
        ensures kept { self.new.text.now ≡ self.old.text.now }
        ensures word { IfOk result (λ w. w ≡ word_at self.old.text.now self.old.at) }
        ensures moved { OnOk result (self.new.at ≡ self.old.at + 17) }
        ensures end { OnErr result (length self.old.text.now < self.old.at + 17) }
    {
        let at = self.pass(1)?;
        Ok(word(self.text, at))
    }

    // The next word, as a signed number.
    pub fn number(&mut self) -> Result<i64, Unread>
        ensures kept { self.new.text.now ≡ self.old.text.now }
        ensures word { IfOk result (λ t. t ≡ to_z w64 (word_at self.old.text.now self.old.at)) }
        ensures moved { OnOk result (self.new.at ≡ self.old.at + 17) }
        ensures end { OnErr result (length self.old.text.now < self.old.at + 17) }
    {
        Ok(signed(self.word()?))
    }

    // The next word, as a count of at most MOST.
    pub fn count(&mut self) -> Result<usize, Unread>
        ensures kept { self.new.text.now ≡ self.old.text.now }
        ensures word { IfOk result (λ n. (n ≡ word_at self.old.text.now self.old.at) × (n ≤ 64)) }
        ensures moved { OnOk result (self.new.at ≡ self.old.at + 17) }
        ensures end { OnErr result ((length self.old.text.now < self.old.at + 17) ⊎ (64 < word_at self.old.text.now self.old.at)) }
    {
        let n = self.word()?;
        if n > MOST as u64 {
            return Err(Unread::Malformed);
        }
        Ok(n as usize)
    }

    // The next n words.
    pub fn words(&mut self, n: usize) -> Result<Vec<u64>, Unread>
        ensures kept { self.new.text.now ≡ self.old.text.now }
        ensures moved { OnOk result (self.new.at ≡ self.old.at + 17 * n) }
        ensures size { IfOk result (λ xs. length xs.items ≡ n) }
        ensures by_index { IfOk result (λ xs. (k : ℕ) → k < n → get_or xs.items k 0 ≡ word_at self.old.text.now (self.old.at + 17 * k)) }
        ensures end { IfErr result (λ e. e ≡ Malformed → length self.old.text.now < self.old.at + 17 * n) }
    {
        let text = self.text;
        let at = self.pass(n)?;
        Ok(list_of(n, |k| nth_word(text, at, k), self.alloc)?)
    }

    // The same words as signed numbers.
    pub fn times(&mut self, n: usize) -> Result<Vec<i64>, Unread>
        ensures kept { self.new.text.now ≡ self.old.text.now }
        ensures moved { OnOk result (self.new.at ≡ self.old.at + 17 * n) }
        ensures size { IfOk result (λ xs. length xs.items ≡ n) }
        ensures by_index { IfOk result (λ xs. (k : ℕ) → k < n → get_or xs.items k (pos 0) ≡ to_z w64 (word_at self.old.text.now (self.old.at + 17 * k))) }
        ensures end { IfErr result (λ e. e ≡ Malformed → length self.old.text.now < self.old.at + 17 * n) }
    {
        let text = self.text;
        let at = self.pass(n)?;
        Ok(list_of(n, |k| signed(nth_word(text, at, k)), self.alloc)?)
    }
}

// As many words, none of which is the one in its place: what a slice holds before a call that has to write
// these words.
pub fn others(words: &[u64], alloc: Global) -> Result<Vec<u64>, AllocError>
    ensures { IfOk result (λ xs. xs.items ≡ map (λ w. (w + 1) % 2 ^ 64) words.now) }
{
    words.iter().map(|w| w.wrapping_add(1)).collect(alloc)
}
