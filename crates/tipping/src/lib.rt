// The point that tips the round: the lowest level whose flip alone turns a root's answer over.
#![tactic(auto)]

ghost use Rattle.std.specs.Prelude.{◌≡◌, cond, ◌≤◌, length, nat_abs};
ghost use Rattle.codes.specs.Lent.{borrowed, seen};
ghost use Rattle.store.specs.Held.{held};
ghost use Rattle.codes.specs.Refusals.{read_of};
ghost use Rattle.store.specs.Meaning.{setting_of, answer};
ghost use Rattle.evaluation.specs.Evaluated.{Walks};
ghost use Rattle.tipping.specs.Course.{mark_of, recall_of, open_at, Marked, WayAsks};
ghost use Rattle.tipping.specs.Way.{taken_at, other_at};
ghost use Rattle.tipping.specs.Tip.{tips, lowest_from};
ghost use Rattle.tipping.specs.Promises.{TipPromise};

use codes::refusal::Refusal;
use edges::{Edge, Index};
use store::StoreRef;

// The marks of a node's answer, where it is remembered; 0 stands for nothing.
// Stays: a mark lies in the lent work, whose entries are numbers.
const NO: Index = 1;

const YES: Index = 2;

// What is remembered of a node's answer. Node 1 is yes.
fn recall(marks: &[Index], n: Index) -> Index
    ensures { result ≡ recall_of marks.now n }
{
    if n <= 1 {
        return YES;
    }
    let i = n as usize - 1;
    if marks.len() <= i {
        return 0;
    }
    marks[i]
}

// Can a node's answer be remembered that isn't yet?
fn is_open(marks: &[Index], n: Index) -> bool
    ensures { result ≡ open_at marks.now n }
{
    if n <= 1 {
        return false;
    }
    let i = n as usize - 1;
    if marks.len() <= i {
        return false;
    }
    marks[i] == 0
}

// The mark of an answer.
fn mark_of(yes: bool) -> Index
    ensures { result ≡ mark_of yes }
{
    if yes { YES } else { NO }
}

// One of two edges.
fn choose(yes: bool, t: Edge, e: Edge) -> Edge
    ensures { result ≡ cond yes t e }
{
    if yes { t } else { e }
}

// The edge that the way at a setting takes from a node.
fn taken(store: &StoreRef, setting: &[u8], n: Index) -> Edge
    requires { (2 ≤ n) × Walks (held store.now) setting.now n }
    ensures { result ≡ taken_at (held store.now) (setting_of setting.now) n }
{
    let i = n as usize - 1;
    let l = store.level[i] as usize;
    let t = store.then[i];
    let e = store.els[i];
    choose(setting[l] == 1, t, e)
}

// The other one.
fn other(store: &StoreRef, setting: &[u8], n: Index) -> Edge
    requires { (2 ≤ n) × Walks (held store.now) setting.now n }
    ensures { result ≡ other_at (held store.now) (setting_of setting.now) n }
{
    let i = n as usize - 1;
    let l = store.level[i] as usize;
    let t = store.then[i];
    let e = store.els[i];
    choose(setting[l] == 1, e, t)
}

// What an edge answers at the setting: down its way to a node whose answer is remembered.
fn ask(store: &StoreRef, setting: &[u8], marks: &[Index], e: Edge) -> bool
    requires { WayAsks (held store.now) setting.now marks.now e }
    ensures { result ≡ answer (held store.now) (setting_of setting.now) e }
{
    let mut n = edges::magnitude(e);
    // Is the answer of node n turned over on the way back?
    let mut odd = edges::is_minus(e);
    let mut mark = recall(marks, n);
    while mark == 0 {
        let x = taken(store, setting, n);
        odd = odd != edges::is_minus(x);
        n = edges::magnitude(x);
        mark = recall(marks, n);
    }
    (mark == YES) != odd
}

// Remembers what the nodes on the way of an edge answer, down to one whose answer is remembered: `says` is what the edge answers.
fn remember(store: &StoreRef, setting: &[u8], marks: &mut [Index], e: Edge, says: bool)
    requires way_asks { WayAsks (held store.now) setting.now marks.old e }
    requires says_value { says ≡ answer (held store.now) (setting_of setting.now) e }
    ensures { Marked (held store.now) (setting_of setting.now) marks.new }
{
    let mut n = edges::magnitude(e);
    // What node n answers.
    let mut here = says != edges::is_minus(e);
    while is_open(marks, n) {
        let i = n as usize - 1;
        marks[i] = mark_of(here);
        let x = taken(store, setting, n);
        here = here != edges::is_minus(x);
        n = edges::magnitude(x);
    }
}

// Down the way of a root. At each node the flip of its level leads to its other edge, and turns the root's answer over where that edge answers
// otherwise than the node. What nodes answer is remembered as far as there are marks, so that no way is gone twice.
fn lowest(store: &StoreRef, setting: &[u8], root: Edge, marks: &mut [Index]) -> Result<u16, Refusal>
    requires { (1 ≤ nat_abs root) × Walks (held store.now) setting.now (nat_abs root) }
    ensures { read_of result ≡ lowest_from (tips (held store.now) root (setting_of setting.now)) 0 (length setting.now) }
{
    marks.fill(0);
    let says = ask(store, setting, marks, root);
    remember(store, setting, marks, root, says);
    let mut n = edges::magnitude(root);
    // What node n answers.
    let mut here = says != edges::is_minus(root);
    while n > 1 {
        let x = other(store, setting, n);
        let turned = ask(store, setting, marks, x);
        if turned != here {
            return Ok(store.level[n as usize - 1]);
        }
        remember(store, setting, marks, x, turned);
        let t = taken(store, setting, n);
        here = here != edges::is_minus(t);
        n = edges::magnitude(t);
    }
    Err(Refusal::NoFlip)
}

// How many marks there are in work of this length: one for each node, or none where that is too short. Any number would be right.
fn marks_for(count: Index, len: usize) -> usize
    ensures { result ≤ len }
{
    let nodes = count as usize;
    if nodes <= len { nodes } else { 0 }
}

// The lowest level whose flip alone turns a root's answer at a setting over. `work` is for the check of the store and then for answers that are
// remembered: of any length, and zeros afterwards.
pub fn tip(store: &StoreRef, root: Edge, setting: &[u8], work: &mut [Index]) -> Result<u16, Refusal>
    ensures { TipPromise (held store.now) root (seen setting) (borrowed work) result }
{
    if let Err(refusal) = evaluation::evaluation_fault(store, root, setting, work) {
        work.fill(0);
        return Err(refusal);
    }
    let n = marks_for(store.count, work.len());
    let tipped = lowest(store, setting, root, &mut work[..n]);
    work.fill(0);
    tipped
}
