// The level list of a load: one level for each support variable, strictly ascending.
#![tactic(auto)]

ghost use Rattle.std.specs.Prelude.{◌≡◌};
ghost use Rattle.level_list.specs.List.{list_fits};

// Whether a level list is one level per support variable, strictly ascending, below the store's level count.
pub fn list_fits(list: &[u16], nsuppvars: u32, levels: u16) -> bool
    ensures { result ≡ list_fits nsuppvars levels list.now }
{
    if list.len() != nsuppvars as usize {
        return false;
    }
    list.is_sorted_by(|a, b| a < b) && list.last().is_none_or(|level| *level < levels)
}
