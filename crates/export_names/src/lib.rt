// Names of variables and roots, and of the diagram, checked before an export.
#![tactic(auto)]

ghost use Rattle.std.specs.Prelude.{◌≡◌, true, length};
ghost use Rattle.read_text.specs.Kinds.{of_utf8_next};
ghost use Rattle.read_text.specs.Text.{place};
ghost use Rattle.export_names.specs.Names.{fit_span, name_next, fit_place, fit_places, name_list_fits};
ghost use Rattle.variable_names.specs.Names.{places};

use read_text::Utf8;

const NAME_LIMIT: usize = 255;

// Does a name lie inside the lent bytes, with a length that a name may have? The diagram's may be empty.
#[tactic(auto, unfolding(crate::specs::Names::fit_span))]
fn place_fits(diagram: bool, lent: usize, start: u32, len: u32) -> bool
    ensures { result ≡ fit_span diagram lent (place start len) }
{
    (diagram || len != 0) && len as usize <= NAME_LIMIT && start as usize + len as usize <= lent
}

// One byte more of a name: a control byte is unfit, and so is a space but in the diagram's.
#[tactic(auto, unfolding(crate::specs::Names::name_next))]
fn name_next(diagram: bool, state: Utf8, b: u8) -> Option<Utf8>
    ensures { of_utf8_next result ≡ name_next diagram state b }
{
    if codes::is_control(b) || (b == b' ' && !diagram) {
        return None;
    }
    read_text::utf8_next(state, b)
}

// Is each name of a list fit? The first unfit byte in any name ends the whole check. Starts and lengths are equally many.
pub fn names_fit(diagram: bool, bytes: &[u8], starts: &[u32], lens: &[u32]) -> bool
    requires { length starts.now ≡ length lens.now }
    ensures { result ≡ fit_places diagram bytes.now (places starts.now lens.now) }
{
    let mut fit = true;
    'names: for i in 0..lens.len() {
        let start = starts[i] as usize;
        let len = lens[i] as usize;
        if !place_fits(diagram, bytes.len(), starts[i], lens[i]) {
            fit = false;
            break 'names;
        }
        let mut state = Utf8::Whole;
        for k in 0..len {
            let Some(next) = name_next(diagram, state, bytes[start + k]) else {
                fit = false;
                break 'names;
            };
            state = next;
        }
        if let Utf8::Tail(_, _, _) = state {
            fit = false;
            break 'names;
        }
    }
    fit
}

// Is a list of names fit, with no entry or one for each of `want`?
#[tactic(auto, unfolding(crate::specs::Names::name_list_fits, crate::specs::Names::counted))]
pub fn list_fits(want: usize, bytes: &[u8], starts: &[u32], lens: &[u32]) -> bool
    ensures { result ≡ name_list_fits want bytes.now starts.now lens.now }
{
    if starts.len() != lens.len() || (lens.len() != 0 && lens.len() != want) {
        return false;
    }
    names_fit(false, bytes, starts, lens)
}

// Is the diagram's name fit?
pub fn diagram_fits(bytes: &[u8], start: u32, len: u32) -> bool
    ensures { result ≡ fit_place true bytes.now (place start len) }
{
    names_fit(true, bytes, &[start], &[len])
}
