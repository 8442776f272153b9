// Cases of numbers in decimal digits.
use crate::answer;
use codes::refusal::Refusal;
use read_numbers::{Role, Width};

pub fn single<'a, N: Width + Into<u64>>(input: &[u8], stored: &'a [u8]) -> Option<&'a [u8]> {
    let read = read_numbers::parse_single::<N>(input);
    answer::after_result(stored, read.map(|v| [v.into()]))
}

pub fn first<'a, N: Width + Into<u64>>(input: &[u8], stored: &'a [u8]) -> Option<&'a [u8]> {
    let read = read_numbers::parse_first::<N>(input);
    answer::after_result(stored, read.map(|(v, next)| [v.into(), next as u64]))
}

// The role of digits, by the refusal that a minus meets in them.
fn role_of(minus: u8) -> Role {
    if minus == Refusal::NotANumber.number() {
        Role::Single
    } else if minus == Refusal::Foreign.number() {
        Role::Entry
    } else {
        Role::Magnitude
    }
}

// The largest number comes in two halves. One below 9 is no case: no width is that small.
pub fn digits<'a>(
    input: &[u8],
    low: usize,
    high: usize,
    minus: u8,
    stored: &'a [u8],
) -> Option<&'a [u8]> {
    let max = low as u64 | ((high as u64) << 32);
    if max < 9 {
        return None;
    }
    let read = read_numbers::parse_digits(input, max, role_of(minus));
    answer::after_result(stored, read.map(|v| [v]))
}
