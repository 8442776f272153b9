// Cases of escaped bytes and 7-bit numbers.
use crate::answer;

pub fn byte<'a>(input: &[u8], at: usize, stored: &'a [u8]) -> Option<&'a [u8]> {
    let read = read_binary::read_unescape(input, at);
    answer::after_result(stored, read.map(|(b, next)| [u64::from(b), next as u64]))
}

pub fn number<'a>(input: &[u8], at: usize, stored: &'a [u8]) -> Option<&'a [u8]> {
    let read = read_binary::decode_7bit(input, at);
    answer::after_result(stored, read.map(|(v, next)| [v, next as u64]))
}
