// A node line as data: what both modes of a file's nodes share.
#![tactic(auto)]

ghost use Rattle.std.specs.Prelude.{◌≡◌, ◌≤◌};
ghost use Rattle.node_lines.specs.Line.{deeper};

use edges::{Edge, Index};

// A node line. Children are numbers of lines, with a minus where a child is turned over.
#[derive(Clone, Copy, PartialEq, Eq)]
pub enum NodeLine {
    Terminal,
    Inner(u16, Edge, Edge),
}

// Whether a line lies deeper than a level. `seats` has, for each line so far, its support position counted from 1, and 0 for a terminal
// line, which is deeper than every level.
#[tactic(auto, unfolding(crate::specs::Line::deeper))]
pub fn deeper(levels: &[u16], seats: &[u16], level: u16, line: Index) -> bool
    requires { 1 ≤ line }
    ensures { result ≡ deeper levels.now seats.now level line }
{
    let Some(seat) = seats.get(line as usize - 1) else {
        return true;
    };
    *seat == 0 || levels.get(*seat as usize - 1).is_some_and(|l| level < *l)
}
