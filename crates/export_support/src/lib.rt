// The support of an export: the levels that have a line.
#![tactic(auto)]

ghost use Rattle.std.specs.Prelude.{◌≡◌, [], ◌≤◌, length, replicate};
ghost use Rattle.store.specs.Store.{store};
ghost use Rattle.seats.specs.Seats.{Seats};
ghost use Rattle.numbering.specs.Support.{support_of, Placed};
ghost use Rattle.numbering.specs.Depths.{Marked};

use edges::Index;

// Marks the level of each inner node: the terminal lies deeper than every level.
fn mark_levels(levels: u16, level: &[u16], nodes: &[Index], seats: &mut [u16])
    requires placed { Placed levels level.now nodes.now × (levels ≤ length seats.old) }
    requires seats_value { seats.old ≡ replicate (length seats.old) 0 }
    ensures { Marked (support_of (store levels 0 level.now [] [] [] []) nodes.now) seats.new }
{
    for n in nodes {
        let d = numbering::depth_of(levels, level, *n);
        if d < levels as usize {
            seats[d] = 1;
        }
    }
}

// Fills a list of zeros with the seat of each level in the support, its position counted from 1; a level that has no line keeps 0. The answer
// is the number of levels that have one.
pub fn seat_levels(levels: u16, level: &[u16], nodes: &[Index], seats: &mut [u16]) -> u16
    requires placed { Placed levels level.now nodes.now × (levels ≤ length seats.old) }
    requires seats_value { seats.old ≡ replicate (length seats.old) 0 }
    ensures value { result ≡ length (support_of (store levels 0 level.now [] [] [] []) nodes.now) }
    ensures seats { Seats (support_of (store levels 0 level.now [] [] [] []) nodes.now) seats.new }
{
    mark_levels(levels, level, nodes, seats);
    let mut seat: u16 = 0;
    for l in 0..levels as usize {
        if seats[l] != 0 {
            seat += 1;
            seats[l] = seat;
        }
    }
    seat
}
