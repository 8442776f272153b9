// What the programs share that replay stored cases: the numbers of a case, reading it from a file, and counting. A file has its cases one
// after the other, each a head of fixed length and what the head says that follows.
#![tactic(auto)]

ghost use Rattle.std.specs.Prelude.{◌+◌, ◌≤◌, ◌≡◌, length, take, false, [], Err, None, Some, IfOk};
ghost use Rattle.std.specs.Io.KnownBytes.{Consumes};
ghost use Rattle.replay.specs.Numbers.{two_at, four_at, eight_at};
ghost use Rattle.replay.specs.Counting.{one_more, no_cases, tallied, said};
ghost use Rattle.replay.specs.Reading.{IsPrefixLen, ConsumesPart};

use std::env::FillError;
use std::io::Read;
use std::rt::{Env, Files};
use std::{fmt, fs};

// Why there is no case: the file ends after the last one, or inside this one.
#[derive(Clone, Copy)]
pub enum End {
    NoMore,
    Cut,
}

// How many cases a file has, how many differ, and how it ends, where its end was met.
#[derive(Clone, Copy, Default)]
pub struct Tally {
    pub cases: u64,
    pub differ: u64,
    pub end: Option<End>,
}

// More cases than any file has: the count ends.
pub const MOST: u64 = 10000000;

// The number that the two bytes from a position on hold.
pub fn two(s: &[u8], at: usize) -> u64
    requires { at + 2 ≤ length s.now }
    ensures value { result ≡ two_at s.now at }
    ensures upper_bound { result ≤ 65535 }
{
    u64::from(s[at]) + 256 * u64::from(s[at + 1])
}

// The number that the four bytes from a position on hold.
pub fn four(s: &[u8], at: usize) -> u64
    requires { at + 4 ≤ length s.now }
    ensures value { result ≡ four_at s.now at }
    ensures upper_bound { result ≤ 4294967295 }
{
    two(s, at) + 65536 * two(s, at + 2)
}

// The number that the eight bytes from a position on hold.
pub fn eight(s: &[u8], at: usize) -> u64
    requires { at + 8 ≤ length s.now }
    ensures { result ≡ eight_at s.now at }
{
    four(s, at) + 4294967296 * four(s, at + 4)
}

// Room for 65,536 bytes.
pub fn large_buffer() -> [u8; 65536]
    ensures { 65536 ≡ length result }
{
    [0; 65536]
}

// Reads once, and gives how many bytes it put at the start of buf: a read that fails gives none, as at the end of the file.
fn read_some<R: Read>(file: &mut R, buf: &mut [u8]) -> usize
    ensures within { IsPrefixLen result buf.new }
    ensures bytes { Consumes (R.remaining file.old) (R.remaining file.new) (take result buf.new) }
{
    file.read(buf).unwrap_or(0)
}

// Reads until buf is full, the file ends or a read fails, and gives how many bytes it put at the start of buf: they are the next of the file.
pub fn read_full<R: Read>(file: &mut R, buf: &mut [u8]) -> usize
    ensures within { IsPrefixLen result buf.new }
    ensures bytes { Consumes (R.remaining file.old) (R.remaining file.new) (take result buf.new) }
{
    let mut done = 0;
    while done < buf.len() {
        let got = read_some(file, &mut buf[done..]);
        done += got;
        if got == 0 {
            break;
        }
    }
    done
}

// Reads n bytes to the start of buf, and gives how many it read: fewer where the file ends before, none where buf is too short.
pub fn fetch<R: Read>(file: &mut R, buf: &mut [u8], n: usize) -> usize
    ensures within { IsPrefixLen result buf.new }
    ensures upper_bound { result ≤ n }
    ensures bytes { Consumes (R.remaining file.old) (R.remaining file.new) (take result buf.new) }
{
    if n <= buf.len() {
        read_full(file, &mut buf[..n])
    } else {
        0
    }
}

// The head of the next case.
pub fn head<const N: usize, R: Read>(file: &mut R) -> Result<[u8; N], End>
    ensures bytes { IfOk result (λ h. Consumes (R.remaining file.old) (R.remaining file.new) h) }
    ensures no_more { result ≡ Err End.NoMore → Consumes (R.remaining file.old) (R.remaining file.new) [] }
    ensures cut { result ≡ Err End.Cut → ConsumesPart N (R.remaining file.old) (R.remaining file.new) }
{
    let mut head = [0; N];
    match read_full(file, &mut head) {
        0 => Err(End::NoMore),
        got if got < N => Err(End::Cut),
        _ => Ok(head),
    }
}

// The next n bytes of a case, which it puts to the start of buf. A case isn't whole that has more than buf has room for.
pub fn part<'a, R: Read>(file: &mut R, buf: &'a mut [u8], n: usize) -> Result<&'a [u8], End>
    ensures len { IfOk result (λ s. length s.now ≡ n) }
    ensures bytes { IfOk result (λ s. Consumes (R.remaining file.old) (R.remaining file.new) s.now) }
{
    if fetch(file, buf, n) < n {
        return Err(End::Cut);
    }
    Ok(&buf[..n])
}

fn one_more(n: u64) -> u64
    ensures { result ≡ one_more n }
{
    if n < MOST { n + 1 } else { n }
}

impl Tally {
    // Before the first case.
    pub fn new() -> Tally
        ensures { result ≡ no_cases }
    {
        Tally::default()
    }

    // After one case more, whose answer is the stored one or isn't, or the end.
    pub fn after(self, came: Result<bool, End>) -> Tally
        ensures { result ≡ tallied self came }
    {
        match came {
            Ok(true) => Tally {
                cases: one_more(self.cases),
                ..self
            },
            Ok(false) => Tally {
                cases: one_more(self.cases),
                differ: one_more(self.differ),
                ..self
            },
            Err(end) => Tally {
                end: Some(end),
                ..self
            },
        }
    }

    // Of all cases of a file: `one` replays the next of them, with what it keeps from one to the next.
    pub fn of<F, S, One>(file: &mut F, kept: &mut S, one: &One) -> Tally
    where
        One: Fn(&mut F, &mut S) -> Result<bool, End>,
        requires { One.IsAlwaysCallable one.now }
        ensures { result.end ≡ None → result.cases ≡ 10000000 }
    {
        let mut t = Tally::new();
        for _ in 0..MOST {
            t = t.after(one(file, kept));
            if t.end.is_some() {
                break;
            }
        }
        t
    }
}

impl fmt::Display for Tally {
    ghost output = { λ t. Some (said t.cases t.differ t.end) };

    fn fmt<W: fmt::Write>(&self, f: &mut fmt::Formatter<W>) -> fmt::Result {
        let cases = self.cases;
        let differ = self.differ;
        match self.end {
            Some(End::NoMore) => write!(f, "{cases} cases, {differ} differ"),
            _ => write!(f, "cut off after {cases} cases"),
        }
    }
}

// How many arguments the program has, its own name among them. With no room, only an argument that isn't there isn't too long.
pub fn arg_count(rt: &impl Env) -> usize {
    for i in 0..usize::MAX {
        if let Err(FillError::NotPresent) = rt.arg(i, &mut []) {
            return i;
        }
    }
    usize::MAX
}

// The file of a name, to be read. A name that isn't text names none.
fn open_read<R: Files>(rt: &R, name: &[u8]) -> Option<R::File> {
    let text = str::from_utf8(name).ok()?;
    fs::open(rt, text).ok()
}

// Opens the file that an argument names, and says its name. Where it can't be opened it says so, and gives none. Output that fails is passed over,
// here and below: there is nowhere to say so.
pub fn open<R: Env + Files + Print>(rt: &R, argument: usize) -> Option<R::File> {
    let mut room = [0; 4096];
    let n = rt.arg(argument, &mut room).unwrap_or(0);
    let name = &room[..n];
    let _ = rt.write_all(name);
    let file = open_read(rt, name);
    if file.is_none() {
        let _ = println!(rt; ": can't be opened");
    }
    file
}

// Closes a file, and says how many cases it has and how many differ.
pub fn close<F: Drop>(rt: &impl Print, file: F, t: Tally) {
    drop(file);
    let _ = println!(rt; ": {t}");
}

// Replays the cases of each file that the arguments name. `start` gives what is kept from the first case of a file on, and `one` replays the next.
pub fn run<R, S, Start, One>(rt: &R, start: Start, one: One)
where
    R: Env + Files + Print,
    S: Drop,
    Start: Fn() -> S,
    One: Fn(&mut R::File, &mut S) -> Result<bool, End>,
    requires start { Start.IsAlwaysCallable start }
    requires one { One.IsAlwaysCallable one }
{
    for i in 1..arg_count(rt) {
        if let Some(mut file) = open(rt, i) {
            let t = Tally::of(&mut file, &mut start(), &one);
            close(rt, file, t);
        }
    }
}
