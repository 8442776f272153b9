// Lines, and what stands in them, by positions of the file.
#![tactic(auto)]

ghost use Rattle.std.specs.Prelude.{◌≡◌, ◌-◌, ◌≤◌, length};
ghost use Rattle.read_lines.specs.Line.{is_of, seek, trim, line_of, field_of, LineWithin, FieldWithin};

mod split;

pub use split::Words;

// What a search looks for.
#[derive(Clone, Copy)]
pub enum Class {
    Feed,
    LineEnd,
    Blank,
    NonBlank,
}

// A line: where it ends, its line end not counted, and where the next one starts.
#[derive(Clone, Copy)]
pub struct Line {
    pub end: usize,
    pub next: usize,
}

// What a line of the header says: where its key ends, and where its value starts and ends.
#[derive(Clone, Copy)]
pub struct Field {
    pub key: usize,
    pub start: usize,
    pub end: usize,
}

#[tactic(auto, unfolding(crate::specs::Line::is_of))]
fn is_of(class: Class, b: u8) -> bool
    ensures { result ≡ is_of class b }
{
    match class {
        Class::Feed => b == b'\n',
        Class::LineEnd => codes::is_line_end(b),
        Class::Blank => codes::is_blank(b),
        Class::NonBlank => !codes::is_blank(b),
    }
}

// The first position from `from` on, below `end`, at a byte of the class; or `end`.
pub fn forward(f: &[u8], from: usize, end: usize, class: Class) -> usize
    requires { (from ≤ end) × (end ≤ length f.now) }
    ensures value { result ≡ seek (is_of class) f.now from (end - from) }
    ensures lower_bound { (from ≤ result) × (result ≤ end) }
{
    for i in from..end {
        if is_of(class, f[i]) {
            return i;
        }
    }
    end
}

// The end of what stands from `from` to `end` without the bytes of the class that stand last.
pub fn backward(f: &[u8], from: usize, end: usize, class: Class) -> usize
    requires { (from ≤ end) × (end ≤ length f.now) }
    ensures value { result ≡ trim (is_of class) f.now from (end - from) }
    ensures lower_bound { (from ≤ result) × (result ≤ end) }
{
    for i in (from..end).rev() {
        if !is_of(class, f[i]) {
            return i + 1;
        }
    }
    from
}

pub fn line_at(f: &[u8], at: usize) -> Line
    requires { at ≤ length f.now }
    ensures value { result ≡ line_of f.now at }
    ensures line_within { LineWithin f.now at result }
{
    let feed = forward(f, at, f.len(), Class::Feed);
    let end = backward(f, at, feed, Class::LineEnd);
    if feed < f.len() {
        Line {
            end,
            next: feed + 1,
        }
    } else {
        Line { end, next: feed }
    }
}

pub fn field_of(f: &[u8], at: usize, end: usize) -> Field
    requires { (at ≤ end) × (end ≤ length f.now) }
    ensures value { result ≡ field_of f.now at end }
    ensures field_within { FieldWithin at end result }
{
    let key = forward(f, at, end, Class::Blank);
    let start = forward(f, key, end, Class::NonBlank);
    let stop = backward(f, start, end, Class::Blank);
    Field {
        key,
        start,
        end: stop,
    }
}
