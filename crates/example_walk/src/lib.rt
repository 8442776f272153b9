// A walk that would count: the first setting at which a root answers as wanted, level 0 compared first and no before yes.
#![tactic(auto)]

ghost use Rattle.codes.specs.Lent.{borrowed};
ghost use Rattle.codes.specs.Limits.{limits};
ghost use Rattle.codes.specs.Refusals.{fault_of};
ghost use Rattle.std.specs.Prelude.{◌≡◌};
ghost use Rattle.store.specs.Held.{held};
ghost use Rattle.example_walk.specs.Course.{never, example_fault, WalkAsks};
ghost use Rattle.example_walk.specs.Promises.{WalkPromise, ExamplePromise};

use codes::refusal::Refusal;
use edges::{Edge, Index};
use store::StoreRef;

// Is this an edge that never answers so? Only one to node 1 is, since every other one answers yes at some settings and no at others.
fn never_answers(e: Edge, wanted: bool) -> bool
    ensures { result ≡ never e wanted }
{
    edges::magnitude(e) == 1 && edges::is_minus(e) == wanted
}

// Walks down from a root to the first setting that answers as wanted: at each node it takes no, unless no's edge never answers so. Levels that
// it doesn't meet stay no.
fn walk(store: &StoreRef, root: Edge, wanted: bool, setting: &mut [u8])
    requires { WalkAsks (held store.now) root wanted setting.old }
    ensures { WalkPromise (held store.now) root wanted (borrowed setting) }
{
    let mut n = edges::magnitude(root);
    // What node n is to answer.
    let mut asked = wanted != edges::is_minus(root);
    while n > 1 {
        let i = n as usize - 1;
        let e = store.els[i];
        if never_answers(e, asked) {
            setting[store.level[i] as usize] = 1;
            n = edges::magnitude(store.then[i]);
        } else {
            n = edges::magnitude(e);
            asked = asked != edges::is_minus(e);
        }
    }
}

// What refuses the call: that the setting is shorter than the levels, the store breaks its rules, the root isn't one of it or it never answers as
// wanted.
fn example_fault(
    store: &StoreRef,
    root: Edge,
    wanted: bool,
    long: usize,
    work: &mut [Index],
) -> Result<(), Refusal>
    ensures { fault_of result ≡ example_fault limits (held store.now) root wanted long }
{
    if long < store.levels as usize {
        return Err(Refusal::TooShort);
    }
    if !rules::keeps_rules(store, store.count, work) {
        return Err(Refusal::BrokenStore);
    }
    if !evaluation::is_root(store.count, root) {
        return Err(Refusal::BadRootOrSetting);
    }
    if never_answers(root, wanted) {
        return Err(Refusal::NoSetting);
    }
    Ok(())
}

// The first setting at which a root of the store answers as wanted, one byte for each level, and zeros beyond them. `work` is for the check of the
// store: of any length, and zeros afterwards.
pub fn example(
    store: &StoreRef,
    root: Edge,
    wanted: bool,
    setting: &mut [u8],
    work: &mut [Index],
) -> Result<(), Refusal>
    ensures { ExamplePromise (held store.now) root wanted (borrowed setting) (borrowed work) result }
{
    setting.fill(0);
    let checked = example_fault(store, root, wanted, setting.len(), work);
    work.fill(0);
    checked?;
    walk(store, root, wanted, &mut setting[..store.levels as usize]);
    Ok(())
}
