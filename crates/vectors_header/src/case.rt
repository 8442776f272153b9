// One case: what the caller found, the lengths of the lent lists, a file and its answer.
use crate::lists;
use replay::End;
use std::fs::File;

// Room for the longest file of a case, and for the longest answer.
pub const ROOM: usize = 130000;

// The next case of a file. The rooms, for its file and for its answer, are kept from one case to the next, so that they are zeroed once.
pub fn one(file: &mut File, rooms: &mut ([u8; ROOM], [u8; ROOM])) -> Result<bool, End> {
    let head: [u8; 27] = replay::head(file)?;
    let f = replay::part(file, &mut rooms.0, replay::four(&head, 19) as usize)?;
    let stored = replay::part(file, &mut rooms.1, replay::four(&head, 23) as usize)?;
    Ok(lists::left(&head, f, stored).is_some_and(|left| left.is_empty()))
}
