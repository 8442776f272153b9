// The lists of a store as they are kept from one case to the next, one after the other in one list of numbers: a case has only the
// stretches that differ from the case before.
use edges::Edge;
use replay::End;
use std::fs::File;

// The most entries of a list of edges or of indices.
pub const SLOTS: usize = 32800;

// Where each list starts: level, which starts first, then, else and next, which have room for as many slots, and the bucket heads.
pub const THEN: usize = 32800;

pub const ELS: usize = 65600;

pub const NEXT: usize = 98400;

pub const HEADS: usize = 131200;

// How many numbers all lists have.
pub const ROOM: usize = 131500;

// A stretch is where it starts, in three bytes, how many numbers it has, in two, and these. A case isn't whole that has more than the lists.
fn stretch(file: &mut File, lists: &mut [u16]) -> Result<(), End> {
    let mut head = [0; 5];
    let head = replay::part(file, &mut head, 5)?;
    let start = replay::two(head, 0) as usize + 65536 * usize::from(head[2]);
    let count = replay::two(head, 3) as usize;
    let mut bytes = [0; ROOM];
    let bytes = replay::part(file, &mut bytes, 2 * count)?;
    let changed = lists.get_mut(start..start + count).ok_or(End::Cut)?;
    for (i, x) in changed.iter_mut().enumerate() {
        *x = replay::two(bytes, 2 * i) as u16;
    }
    Ok(())
}

// Makes as many changes.
pub fn change(file: &mut File, stretches: u16, lists: &mut [u16]) -> Result<(), End> {
    for _ in 0..stretches {
        stretch(file, lists)?;
    }
    Ok(())
}

// A number of 16 bits, read as two's complement.
pub fn signed(x: u16) -> Edge {
    Edge::from(x.cast_signed())
}

// The first n numbers as entries of a list, which are put into its room; none where there are fewer, or no room. The cases have 16 bits for
// each edge and index.
pub fn entries<'a, T, Entry: Fn(u16) -> T>(
    numbers: &[u16],
    n: usize,
    room: &'a mut [T],
    entry: Entry,
) -> Option<&'a [T]>
where
    T: Copy,
    requires { Entry.IsAlwaysCallable entry }
{
    let numbers = numbers.get(..n)?;
    let list = room.get_mut(..n)?;
    for (x, number) in list.iter_mut().zip(numbers) {
        *x = entry(*number);
    }
    Some(list)
}
