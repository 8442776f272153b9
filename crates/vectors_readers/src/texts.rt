// Cases of texts, lines and single bytes.
use crate::answer;
use codes::{Code, limits};
use read_lines::Class;

pub fn utf8<'a>(input: &[u8], stored: &'a [u8]) -> Option<&'a [u8]> {
    answer::after_result(stored, Ok([u64::from(read_text::is_utf8(input))]))
}

pub fn text<'a>(input: &[u8], base: usize, stored: &'a [u8]) -> Option<&'a [u8]> {
    let base = u32::try_from(base).ok()?;
    if input.len() > (u32::MAX - base) as usize {
        return None;
    }
    let read = read_text::parse_str(input, base);
    answer::after_result(stored, read.map(|p| [u64::from(p.start), u64::from(p.len)]))
}

// Stays: the number stands in the files, and the type is of another crate, which therefore takes no `From` here.
fn class_of(n: usize) -> Class {
    match n {
        0 => Class::Feed,
        1 => Class::LineEnd,
        2 => Class::Blank,
        _ => Class::NonBlank,
    }
}

pub fn forward<'a>(
    input: &[u8],
    from: usize,
    end: usize,
    class: usize,
    stored: &'a [u8],
) -> Option<&'a [u8]> {
    if from > end || end > input.len() {
        return None;
    }
    let at = read_lines::forward(input, from, end, class_of(class));
    answer::after_result(stored, Ok([at as u64]))
}

pub fn backward<'a>(
    input: &[u8],
    from: usize,
    end: usize,
    class: usize,
    stored: &'a [u8],
) -> Option<&'a [u8]> {
    if from > end || end > input.len() {
        return None;
    }
    let at = read_lines::backward(input, from, end, class_of(class));
    answer::after_result(stored, Ok([at as u64]))
}

pub fn line<'a>(input: &[u8], at: usize, stored: &'a [u8]) -> Option<&'a [u8]> {
    if at > input.len() {
        return None;
    }
    let l = read_lines::line_at(input, at);
    answer::after_result(stored, Ok([l.end as u64, l.next as u64]))
}

pub fn field<'a>(input: &[u8], at: usize, end: usize, stored: &'a [u8]) -> Option<&'a [u8]> {
    if at > end || end > input.len() {
        return None;
    }
    let d = read_lines::field_of(input, at, end);
    answer::after_result(stored, Ok([d.key as u64, d.start as u64, d.end as u64]))
}

// The five classes of a byte, in the order of the crate `codes`.
pub fn classes(b: u8, stored: &[u8]) -> Option<&[u8]> {
    let classes = [
        codes::is_blank(b),
        codes::is_digit(b),
        codes::is_line_end(b),
        codes::is_whitespace(b),
        codes::is_control(b),
    ];
    answer::after_result(stored, Ok(classes.map(u64::from)))
}

pub fn code(b: u8, stored: &[u8]) -> Option<&[u8]> {
    answer::after_result(stored, Ok([Code::from(b) as u64]))
}

pub fn limit_values(stored: &[u8]) -> Option<&[u8]> {
    let limits = [
        limits::VAR_LIMIT,
        limits::ROOT_LIMIT,
        limits::NODE_LIMIT,
        limits::INPUT_LIMIT,
    ];
    answer::after_result(stored, Ok(limits.map(|n| n as u64)))
}
