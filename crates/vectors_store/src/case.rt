// One case: a store, which differs from that of the case before in some stretches, and what is asked of it.
ghost use Rattle.std.specs.Prelude.{◌+◌, ◌≤◌};

use crate::change;
use crate::change::{ELS, HEADS, NEXT, ROOM, SLOTS, THEN, entries, signed};
use codes::refusal::Refusal;
use edges::Index;
use replay::End;
use std::fs::File;
use store::StoreRef;

// The length of work that is enough for the index of every store.
const WORK: usize = 98304;

// The number of two bytes at a position of a case's head.
fn field(head: &[u8; 23], at: usize) -> u16
    requires { at + 2 ≤ 23 }
{
    replay::two(head, at) as u16
}

fn length(head: &[u8; 23], at: usize) -> usize
    requires { at + 2 ≤ 23 }
    ensures { result ≤ 65535 }
{
    usize::from(field(head, at))
}

// Whether the store's answer is the stored one, with the work that is lent: a refusal, or 0 and 1 for yes. A kind that isn't there is a difference.
// Stays: the kinds are the numbers that stand in the files, and each is read here alone.
fn agrees_with(head: &[u8; 23], store: &StoreRef, setting: &[u8], work: &mut [Index]) -> bool {
    let answer = match head[0] {
        1 => keeps(store, work),
        2 => evaluation::evaluate(store, signed(field(head, 15)), setting, work),
        _ => return false,
    };
    match answer {
        Ok(yes) => head[21] == 0 && head[22] == u8::from(yes),
        Err(r) => head[21] == r.number() && head[22] == 0,
    }
}

// Whether the store keeps its rules, which the stored answer has as a refusal or no.
fn keeps(store: &StoreRef, work: &mut [Index]) -> Result<bool, Refusal> {
    if rules::keeps_rules(store, store.count, work) {
        Ok(false)
    } else {
        Err(Refusal::BrokenStore)
    }
}

// No answer depends on the work: it is asked for with just enough for an index of the nodes, and with none.
fn agrees(head: &[u8; 23], store: &StoreRef, setting: &[u8]) -> bool {
    let mut work = [0; WORK];
    let enough = 3 * (length(head, 3) + 1);
    if let Some(work) = work.get_mut(..enough)
        && !agrees_with(head, store, setting, work)
    {
        return false;
    }
    agrees_with(head, store, setting, &mut [])
}

// The same for each list as long as the case has it lent; none where the case says more than there is.
fn agrees_lent(head: &[u8; 23], lists: &[u16; ROOM], setting: &[u8]) -> Option<bool> {
    let mut then = [0; SLOTS];
    let mut els = [0; SLOTS];
    let mut next = [0; SLOTS];
    let mut heads = [0; SLOTS];
    let store = StoreRef {
        levels: field(head, 1),
        count: Index::from(field(head, 3)),
        level: lists.get(..length(head, 5))?,
        then: entries(&lists[THEN..], length(head, 7), &mut then, signed)?,
        els: entries(&lists[ELS..], length(head, 9), &mut els, signed)?,
        next: entries(&lists[NEXT..], length(head, 11), &mut next, Index::from)?,
        heads: entries(&lists[HEADS..], length(head, 13), &mut heads, Index::from)?,
    };
    Some(agrees(head, &store, setting))
}

// The next case of a file. `lists` is the store of the case before.
pub fn one(file: &mut File, lists: &mut [u16; ROOM]) -> Result<bool, End> {
    let head = replay::head(file)?;
    change::change(file, field(&head, 19), lists)?;
    let mut setting = replay::large_buffer();
    let setting = replay::part(file, &mut setting, length(&head, 17))?;
    Ok(agrees_lent(&head, lists, setting).unwrap_or(false))
}
