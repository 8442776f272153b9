// The sweep over the lines of a header: each is judged, and the place of each key's last value is kept. No list is read yet, so a
// key that is repeated a million times costs a million short lines and nothing to clear.
#![tactic(auto)]

ghost use Rattle.std.specs.Prelude.{◌≡◌, map, ◌+◌, ◌≤◌, ◌<◌, length, replicate, IfOk};
ghost use Rattle.codes.specs.Limits.{input_limit};
ghost use Rattle.codes.specs.Refusals.{read_of};
ghost use Rattle.header_lines.specs.Kinds.{of_swept};
ghost use Rattle.header_lines.specs.Sweep.{keys, step_at, lines_of, end_of, sound, lasts, span_start, span_end, StepWithin, EndWithin, Table};

use codes::refusal::{Fault, Refusal};
use header_keys::Key;

// What a line leads to: the entry of its key and the span of its value, or that the header's lines end here; each with the position of
// the next line.
#[derive(Clone, Copy, PartialEq, Eq)]
pub enum Step {
    Value {
        slot: usize,
        start: u32,
        end: u32,
        next: usize,
    },
    Nodes(usize),
}

// What the line at a position says.
pub fn step_at(f: &[u8], at: usize) -> Result<Step, Refusal>
    requires { (at < length f.now) × (length f.now ≤ input_limit) }
    ensures value { read_of result ≡ step_at f.now at }
    ensures step_within { IfOk result (λ s. StepWithin f.now at s) }
{
    let line = read_lines::line_at(f, at);
    let next = line.next;
    let field = read_lines::field_of(f, at, line.end);
    let key = header_keys::key_of(&f[at..field.key]);
    if key == Some(Key::Nodes) {
        return Ok(Step::Nodes(next));
    }
    let start = field.start as u32;
    header_faults::fault_of(key, &f[field.start..field.end], start)?;
    Ok(Step::Value {
        slot: header_keys::slot_of(key),
        start,
        end: field.end as u32,
        next,
    })
}

// Sweeps over the lines up to `.nodes`: the position after its line, and that line's number. The two lists, zeros at first, hold the
// span of each key's last value, on a refusal of those before it.
pub fn sweep(f: &[u8], starts: &mut [u32], ends: &mut [u32]) -> Result<(usize, usize), Fault>
    requires f_len_bound { length f.now ≤ input_limit }
    requires starts_value { starts.old ≡ replicate keys 0 }
    requires ends_value { ends.old ≡ replicate keys 0 }
    ensures result_value { of_swept result ≡ end_of f.now (lines_of f.now) }
    ensures starts_after { starts.new ≡ map span_start (lasts (sound f.now (lines_of f.now))) }
    ensures ends_after { ends.new ≡ map span_end (lasts (sound f.now (lines_of f.now))) }
    ensures end_within { EndWithin f.now (of_swept result) }
    ensures table { Table f.now starts.new ends.new }
{
    let mut at = 0;
    let mut line: usize = 1;
    while at < f.len() {
        match step_at(f, at).map_err(|r| r.at(line))? {
            Step::Value {
                slot,
                start,
                end,
                next,
            } => {
                read_lists::put(starts, slot, start);
                read_lists::put(ends, slot, end);
                at = next;
                line += 1;
            }
            Step::Nodes(next) => {
                return Ok((next, line));
            }
        }
    }
    Err(Refusal::NoNodes.at(0))
}
