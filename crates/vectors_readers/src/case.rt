// One case: which reader, its arguments, its input and its answer.
ghost use Rattle.std.specs.Prelude.{◌+◌, ◌≤◌};

use crate::lists::{FILL, ROOM};
use crate::{binary, lists, numbers, texts};
use replay::End;
use std::fs::File;

// The length of the longest answer.
pub const ANSWER: usize = 70000;

// The number of 32 bits at a position of a case's head.
fn field(head: &[u8; 21], at: usize) -> usize
    requires { at + 4 ≤ 21 }
{
    replay::four(head, at) as usize
}

// The lowest eight bits of an argument that is a byte.
fn narrow(n: usize) -> u8 {
    (n % 256) as u8
}

// What is left of the stored answer after the answer of a reader, or none where that is another. No reader has a kind that isn't there.
// Stays: the kinds are the numbers that stand in the files, and each is read here alone.
fn left<'a>(head: &[u8; 21], input: &[u8], stored: &'a [u8]) -> Option<&'a [u8]> {
    let a = field(head, 1);
    let b = field(head, 5);
    let room = field(head, 9);
    match head[0] {
        1 => numbers::single::<u32>(input, stored),
        2 => numbers::single::<u64>(input, stored),
        3 => numbers::first::<u32>(input, stored),
        4 => numbers::first::<u64>(input, stored),
        5 => numbers::digits(input, a, b, narrow(room), stored),
        6 => lists::list(
            [FILL; ROOM].get_mut(..room)?,
            |list| read_lists::parse_u32_list(input, a, list),
            u64::from,
            stored,
        ),
        7 => lists::list(
            [i64::from(FILL); ROOM].get_mut(..room)?,
            |list| read_edges::parse_edge_list(input, a, list),
            i64::cast_unsigned,
            stored,
        ),
        8 => lists::children(input, stored),
        9 => texts::utf8(input, stored),
        10 => texts::text(input, a, stored),
        11 => lists::name_list(input, a, b, room, stored),
        12 => texts::forward(input, a, b, room, stored),
        13 => texts::backward(input, a, b, room, stored),
        14 => texts::line(input, a, stored),
        15 => texts::field(input, a, b, stored),
        16 => binary::byte(input, a, stored),
        17 => binary::number(input, a, stored),
        18 => texts::classes(narrow(a), stored),
        19 => texts::code(narrow(a), stored),
        20 => texts::limit_values(stored),
        _ => None,
    }
}

// The next case of a file. The rooms, for its input and for its answer, are kept from one case to the next: zeros for each would cost more than the
// case itself.
pub fn one(file: &mut File, rooms: &mut ([u8; 65536], [u8; ANSWER])) -> Result<bool, End> {
    let head = replay::head(file)?;
    let input = replay::part(file, &mut rooms.0, field(&head, 13))?;
    let stored = replay::part(file, &mut rooms.1, field(&head, 17))?;
    Ok(left(&head, input, stored).is_some_and(|left| left.is_empty()))
}
