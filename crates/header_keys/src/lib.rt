// The keys of a header.
#![tactic(auto)]

ghost use Rattle.std.specs.Prelude.{◌≡◌};
ghost use Rattle.header_keys.specs.Keys.{key_of, lookup, list_keys, entry_of};

// Each key's place is its entry in a table with one for each.
#[derive(Clone, Copy, PartialEq, Eq)]
pub enum Key {
    Ver,
    Mode,
    Varinfo,
    Dd,
    Nnodes,
    Nvars,
    Nsuppvars,
    Nroots,
    Nodes,
    Varnames,
    Suppvarnames,
    Orderedvarnames,
    Ids,
    Permids,
    Auxids,
    Rootids,
    Rootnames,
}

// How many there are: the entries of a table with one for each.
pub const KEYS: usize = 17;

// The keys of lists.
#[tactic(auto, unfolding(crate::specs::Keys::lookup))]
fn list_key(word: &[u8]) -> Option<Key>
    ensures { result ≡ lookup word.now list_keys }
{
    if read_text::same(word, b".varnames") {
        return Some(Key::Varnames);
    }
    if read_text::same(word, b".suppvarnames") {
        return Some(Key::Suppvarnames);
    }
    if read_text::same(word, b".orderedvarnames") {
        return Some(Key::Orderedvarnames);
    }
    if read_text::same(word, b".ids") {
        return Some(Key::Ids);
    }
    if read_text::same(word, b".permids") {
        return Some(Key::Permids);
    }
    if read_text::same(word, b".auxids") {
        return Some(Key::Auxids);
    }
    if read_text::same(word, b".rootids") {
        return Some(Key::Rootids);
    }
    if read_text::same(word, b".rootnames") {
        return Some(Key::Rootnames);
    }
    None
}

// The key that a word is, if it is one. Stays a chain of constants: a table of them is slower to go over, and it has pointers, which are
// to be set wherever the code is loaded.
#[tactic(auto, unfolding(crate::specs::Keys::key_of, crate::specs::Keys::lookup))]
pub fn key_of(word: &[u8]) -> Option<Key>
    ensures { result ≡ key_of word.now }
{
    if read_text::same(word, b".ver") {
        return Some(Key::Ver);
    }
    if read_text::same(word, b".mode") {
        return Some(Key::Mode);
    }
    if read_text::same(word, b".varinfo") {
        return Some(Key::Varinfo);
    }
    if read_text::same(word, b".dd") {
        return Some(Key::Dd);
    }
    if read_text::same(word, b".nnodes") {
        return Some(Key::Nnodes);
    }
    if read_text::same(word, b".nvars") {
        return Some(Key::Nvars);
    }
    if read_text::same(word, b".nsuppvars") {
        return Some(Key::Nsuppvars);
    }
    if read_text::same(word, b".nroots") {
        return Some(Key::Nroots);
    }
    if read_text::same(word, b".nodes") {
        return Some(Key::Nodes);
    }
    list_key(word)
}

// The entry of what a word is, in a table with one for each key; a word that is none has the number after the table's.
pub fn slot_of(key: Option<Key>) -> usize
    ensures { result ≡ entry_of key }
{
    match key {
        Some(key) => key as usize,
        None => KEYS,
    }
}
