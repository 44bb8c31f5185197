// What the programs that replay a list of stored answers share: the cases one after the other, the
// tally of cases and differences, and the lines that report it. A program has a function that replays
// one case.
#![tactic(auto)]

ghost use Rattle.std.specs.Prelude.{IfOk, IfSome, None, cond, ◌≡◌, ◌^◌, ◌≤◌, ◌<◌, eqb, drop, length, take, vec_len, List, Option};
ghost use Rattle.replay.specs.Replayed.{Replayed};
ghost use Rattle.replay.specs.Tally.{After, Counted, begun, differed, passed};
ghost use Rattle.vectors.specs.Words.{body_of};

use std::alloc::{AllocError, Global};
use std::io::{self, Read};
use vectors::{Cursor, Unread};

// The bytes of the longest list that is read.
const LONGEST: u64 = 0x40_0000;

// Reads a list until it ends, or LONGEST bytes of it.
pub fn read<R: Read + Drop>(list: R, alloc: Global) -> io::Result<Vec<u8>>
    ensures bytes { IfOk result (λ text. IfSome (R.remaining list) (λ bytes. text.items ≡ take (2 ^ 22) bytes)) }
    ensures size { IfOk result (λ text. vec_len text ≤ 2 ^ 22) }
{
    let mut text = Vec::new(alloc);
    list.take(LONGEST).read_to_end(&mut text)?;
    // No more came. Of a reader whose bytes are not known `take` does not say so.
    text.truncate(LONGEST as usize);
    Ok(text)
}

// A case that was replayed: how many bytes it has, and whether the port gave the stored answer.
#[derive(Drop)]
pub struct Case {
    pub len: usize,
    pub same: bool,
}

// A test's outcome as it is stored. The lists write a test as 1 or 0.
pub fn flag(b: bool) -> u64
    ensures { result ≡ cond b 1 0 }
{
    u64::from(b)
}

// A case that differed: its number, from 1 on, and where it stands.
#[derive(Clone, Copy)]
pub struct Difference {
    pub number: usize,
    pub from: usize,
    pub to: usize,
}

// The byte where the next case begins, the numbers of cases and of differences so far, and the first
// case that differed. `Counted` is asked in clauses and no ghost field keeps it: with one, the struct imports all that this
// file's clauses name, and of that the specs, which make tallies by `record {..}`, import the struct.
#[derive(Clone, Copy)]
pub struct Tally {
    pub at: usize,
    pub cases: usize,
    pub differences: usize,
    pub first: Option<Difference>,
}

// No case yet; the first begins at a byte.
pub fn begin(at: usize) -> Tally
    ensures counted { Counted result × (result.at ≡ at) × (result.first ≡ None) }
    ensures exact { result ≡ begun at }
{
    Tally {
        at,
        cases: 0,
        differences: 0,
        first: None,
    }
}

impl Tally {
    // The text from the next case on.
    pub fn rest(self, text: &[u8]) -> &[u8]
        requires { self.at < length text.now }
        ensures { result.now ≡ drop self.at text.now }
    {
        let at = self.at;
        &text[at..]
    }

    // The tally after a case with the stored answer that ends at a byte.
    fn passed(self, end: usize) -> Tally
        requires { Counted self × (self.at < end) }
        ensures { result ≡ passed self end }
    {
        Tally {
            at: end,
            cases: self.cases + 1,
            ..self
        }
    }

    // The tally after a difference that ends at a byte.
    fn differed(self, end: usize) -> Tally
        requires { Counted self × (self.at < end) }
        ensures { result ≡ differed self end }
    {
        let number = self.cases + 1;
        let difference = Difference {
            number,
            from: self.at,
            to: end,
        };
        Tally {
            at: end,
            cases: number,
            differences: self.differences + 1,
            first: self.first.or(Some(difference)),
        }
    }

    // The tally after a case. One that cannot be read, or does not stand whole in the text, is cut short:
    // it counts as a difference, and is the last.
    pub fn next(self, text: &[u8], case: Option<Case>) -> Tally
        requires { Counted self × (self.at < length text.now) }
        ensures { After self (length text.now) case result }
    {
        let left = text.len() - self.at;
        let Some(case) = case.filter(|case| 0 < case.len && case.len <= left) else {
            return self.differed(text.len());
        };
        let end = self.at + case.len;
        if case.same {
            self.passed(end)
        } else {
            self.differed(end)
        }
    }
}

// The tally of a list's cases, each of which `case` replays.
pub fn count_cases<F: Fn(&mut Cursor) -> Result<bool, Unread>>(
    text: &[u8],
    alloc: Global,
    case: F,
) -> Result<Tally, AllocError>
    requires { F.IsAlwaysCallable case }
    ensures counted { IfOk result (λ t. Counted t × (length text.now ≤ t.at)) }
    ensures judged { IfOk result (λ t. (cases : List (Option Case)) × Replayed F.Fn case text.now (begun (body_of text.now)) cases t) }
{
    let mut tally = begin(vectors::body(text));
    // No `for` goes on by the length of each case.
    while tally.at < text.len() {
        let mut cursor = Cursor::new(tally.rest(text), alloc);
        let replayed = match case(&mut cursor) {
            Ok(same) => Some(Case {
                len: cursor.at,
                same,
            }),
            Err(Unread::Malformed) => None,
            Err(Unread::OutOfMemory(error)) => return Err(error),
        };
        tally = tally.next(text, replayed);
    }
    Ok(tally)
}

// Writes the numbers of cases and of differences.
fn print_counts(rt: &impl Print, tally: Tally) -> io::Result<()> {
    println!(rt; "{} cases, {} differences", tally.cases, tally.differences)
}

// Writes the first case that differed, as it stands in the text.
fn print_first(rt: &impl Print, text: &[u8], first: Difference) -> io::Result<()> {
    print!(rt; "case {}: ", first.number)?;
    match text.get(first.from..first.to) {
        Some(case) => rt.write_all(case),
        None => Ok(()),
    }
}

// Reports a tally on standard output, and returns whether nothing differed. A write that fails is passed over.
pub fn report(rt: &impl Print, text: &[u8], tally: Tally) -> bool
    ensures { result ≡ eqb tally.differences 0 }
{
    let _ = print_counts(rt, tally);
    if let Some(first) = tally.first {
        let _ = print_first(rt, text, first);
    }
    tally.differences == 0
}

// Replays the list on standard input by a function that replays one case, reports how it went and answers the tally.
pub fn replay<R, F>(rt: &R, case: F) -> io::Result<Tally>
where
    R: Input + Print + AllocGlobal,
    F: Fn(&mut Cursor) -> Result<bool, Unread>,
    requires { F.IsAlwaysCallable case }
    ensures { IfOk result Counted }
{
    let text = read(rt.reader(), rt.alloc())?;
    let tally = count_cases(&text, rt.alloc(), case)?;
    report(rt, &text, tally);
    Ok(tally)
}
