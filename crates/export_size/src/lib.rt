// The export size: how long the output must be.
#![tactic(auto)]

ghost use Rattle.std.specs.Prelude.{◌≡◌, ◌+◌, ◌*◌, ◌≤◌, ◌<◌, leb, IfSome};
ghost use Rattle.export_size.specs.Size.{sum, export_size, limited};

use edges::Index;

// The sum and a multiple of a number, or `None` where they are over the limit. Tested before either is made, so that nothing is lost.
fn plus(total: usize, times: usize, n: usize, max: usize) -> Option<usize>
    requires held { total ≤ max }
    requires times_nonzero { 0 < times }
    ensures value { result ≡ limited max (total + times * n) }
    ensures held_2 { IfSome result (λ s. s ≤ max) }
{
    if (max - total) / times < n {
        return None;
    }
    Some(total + times * n)
}

// The sum and a multiple of each length.
#[tactic(auto, using(crate::proofs::Sums::limited_cases, crate::proofs::Sums::sum_next, crate::proofs::Sums::sum_past))]
fn plus_all(start: usize, times: usize, lens: &[u32], max: usize) -> Option<usize>
    requires held { start ≤ max }
    requires times_nonzero { 0 < times }
    ensures value { result ≡ limited max (start + times * sum lens.now) }
    ensures held_2 { IfSome result (λ s. s ≤ max) }
{
    let mut total = start;
    for len in lens {
        total = plus(total, times, *len as usize, max)?;
    }
    Some(total)
}

// The export size, or `None` where it is over the limit.
#[tactic(auto, using(crate::proofs::Sums::limited_cases), unfolding(crate::specs::Size::export_size))]
fn size_within(
    count: Index,
    levels: u16,
    roots: usize,
    lens: &[u32],
    rootlens: &[u32],
    dd: u32,
    max: usize,
) -> Option<usize>
    ensures { result ≡ limited max (export_size count levels roots lens.now rootlens.now dd) }
{
    let fixed = plus(0, 1, 256, max)?;
    let nodes = plus(fixed, 32, count as usize, max)?;
    let variables = plus(nodes, 24, levels as usize, max)?;
    let listed = plus(variables, 16, roots, max)?;
    let named = plus_all(listed, 3, lens, max)?;
    let rooted = plus_all(named, 1, rootlens, max)?;
    plus(rooted, 1, dd as usize, max)
}

// Is an output of `max` bytes long enough?
#[tactic(auto, using(crate::proofs::Sums::limited_kept))]
pub fn size_fits(
    count: Index,
    levels: u16,
    roots: usize,
    lens: &[u32],
    rootlens: &[u32],
    dd: u32,
    max: usize,
) -> bool
    ensures { result ≡ leb (export_size count levels roots lens.now rootlens.now dd) max }
{
    size_within(count, levels, roots, lens, rootlens, dd, max).is_some()
}
