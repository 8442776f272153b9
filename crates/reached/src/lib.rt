// A walk from the roots over the nodes that they lead to.
#![tactic(auto)]

ghost use Rattle.codes.specs.Lent.{borrowed, seen};
ghost use Rattle.std.specs.Prelude.{◌≡◌, [], ◌-◌, ◌≤◌, length, get_or, replicate, pos, nat_abs};
ghost use Rattle.store.specs.Store.{store};
ghost use Rattle.reached.specs.Meet.{Looks, Meets, Walks};
ghost use Rattle.reached.specs.Promises.{NextChildPromise, MeetPromise, MeetAllPromise};

use edges::{Edge, Index};

// The node that a slot's edge leads to.
fn under(links: &[Edge], n: Index) -> Index
    requires { (1 ≤ n) × (n ≤ length links.now) }
    ensures { result ≡ nat_abs (get_or links.now (n - 1) (pos 0)) }
{
    edges::magnitude(links[n as usize - 1])
}

// The first child of a node that isn't marked: the terminal has no children.
fn next_child(then: &[Edge], els: &[Edge], marks: &[Index], n: Index) -> Option<Index>
    requires { Looks (store 0 0 [] then.now els.now [] []) (length marks.now) n }
    ensures { NextChildPromise (seen then) (seen els) (seen marks) n result }
{
    if n == 1 {
        return None;
    }
    let t = under(then, n);
    if marks[t as usize - 1] == 0 {
        return Some(t);
    }
    let e = under(els, n);
    if marks[e as usize - 1] == 0 {
        return Some(e);
    }
    None
}

// Meets a node, and then all under its then, and then all under its else, but for those that are marked: the numbers of the others go into
// `met`, from a position on. The mark of each is the node that it was met from, the way back; the first one's is its own number.
fn meet(
    then: &[Edge],
    els: &[Edge],
    first: Index,
    met: &mut [Index],
    marks: &mut [Index],
    at: usize,
) -> usize
    requires { Meets (store 0 0 [] then.now els.now [] []) met.old marks.old at first }
    ensures { MeetPromise (seen then) (seen els) first (borrowed met) (borrowed marks) at result }
{
    if marks[first as usize - 1] != 0 {
        return at;
    }
    marks[first as usize - 1] = first;
    met[at] = first;
    let mut next = at + 1;
    let mut n = first;
    loop {
        match next_child(then, els, marks, n) {
            Some(child) => {
                marks[child as usize - 1] = n;
                met[next] = child;
                next += 1;
                n = child;
            }
            None => {
                let parent = marks[n as usize - 1];
                if parent == n {
                    return next;
                }
                n = parent;
            }
        }
    }
}

// Meets the roots in their order.
pub fn meet_all(
    then: &[Edge],
    els: &[Edge],
    roots: &[Edge],
    met: &mut [Index],
    marks: &mut [Index],
) -> usize
    requires walks { Walks (store 0 0 [] then.now els.now [] []) roots.now (length met.old) (length marks.old) }
    requires met_value { (met.old ≡ replicate (length met.old) 0) × (marks.old ≡ replicate (length marks.old) 0) }
    ensures { MeetAllPromise (seen then) (seen els) (seen roots) (borrowed met) (borrowed marks) result }
{
    let mut at: usize = 0;
    for root in roots {
        at = meet(then, els, edges::magnitude(*root), met, marks, at);
    }
    at
}
