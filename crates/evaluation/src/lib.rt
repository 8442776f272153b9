// Evaluation: what an edge answers at a setting (in the field's words an assignment).
#![tactic(auto)]

ghost use Rattle.std.specs.Prelude.{◌≡◌, ◌&&◌, ◌<◌, leb, eqb, length, nat_abs};
ghost use Rattle.std.specs.Bool.{xor};
ghost use Rattle.codes.specs.Lent.{borrowed, seen};
ghost use Rattle.codes.specs.Limits.{limits};
ghost use Rattle.codes.specs.Refusals.{fault_of};
ghost use Rattle.store.specs.Held.{held};
ghost use Rattle.store.specs.Meaning.{setting_of, node, answer};
ghost use Rattle.evaluation.specs.Evaluation.{only_bits, evaluation_fault};
ghost use Rattle.evaluation.specs.Evaluated.{Walks};
ghost use Rattle.evaluation.specs.Promises.{EvaluationPromise};

use codes::refusal::Refusal;
use edges::{Edge, Index};
use store::StoreRef;

// Is a level yes?
fn is_yes(setting: &[u8], l: u16) -> bool
    requires { l < length setting.now }
    ensures { result ≡ setting_of setting.now l }
{
    setting[l as usize] == 1
}

// An edge's answer is its node's, turned over under a minus. This and the next function call each other, the node number falling. Each takes
// along whether the minuses so far are odd in number, so that nothing is left to do after a call, and the setting behind a reference as the
// store is: a slice that is handed on is copied to the stack. So the two are compiled to one loop, with no stack for a level.
#[cycle(eval_edge_eval_node)]
fn eval_edge(store: &StoreRef, setting: &&[u8], odd: bool, e: Edge) -> bool
    requires { Walks (held store.now) setting.now.now (nat_abs e) }
    ensures { result ≡ xor odd (answer (held store.now) (setting_of setting.now.now) e) }
{
    let minus = edges::is_minus(e);
    eval_node(store, setting, odd != minus, edges::magnitude(e))
}

// Node 1 is yes. Another node's answer is that of its then edge where its level is yes, else of its else edge.
#[cycle(eval_edge_eval_node)]
fn eval_node(store: &StoreRef, setting: &&[u8], odd: bool, n: Index) -> bool
    requires { Walks (held store.now) setting.now.now n }
    ensures { result ≡ xor odd (node (held store.now) (setting_of setting.now.now) n) }
{
    if n <= 1 {
        return !odd;
    }
    let i = n as usize - 1;
    if is_yes(*setting, store.level[i]) {
        eval_edge(store, setting, odd, store.then[i])
    } else {
        eval_edge(store, setting, odd, store.els[i])
    }
}

// A root's answer: the walk begins with no minus.
fn eval_root(store: &StoreRef, setting: &[u8], e: Edge) -> bool
    requires { Walks (held store.now) setting.now (nat_abs e) }
    ensures { result ≡ answer (held store.now) (setting_of setting.now) e }
{
    eval_edge(store, &setting, false, e)
}

// Is each byte 00 or 01?
fn bits_only(setting: &[u8]) -> bool
    ensures { result ≡ only_bits setting.now }
{
    setting.iter().all(|b| *b <= 1)
}

// Is this the root of a store with this count?
pub fn is_root(count: Index, root: Edge) -> bool
    ensures { result ≡ leb 1 (nat_abs root) && leb (nat_abs root) count }
{
    let n = edges::magnitude(root);
    1 <= n && n <= count
}

// Is this one byte 00 or 01 per level?
fn is_setting(levels: u16, setting: &[u8]) -> bool
    ensures { result ≡ eqb (length setting.now) levels && only_bits setting.now }
{
    setting.len() == levels as usize && bits_only(setting)
}

// What refuses an evaluation: that the store breaks its rules, that the root isn't one of it or that the setting isn't one byte 00 or 01 per
// level. `work` is for the check of the store, and holds anything afterwards.
#[tactic(auto, unfolding(crate::specs::Evaluation::evaluation_fault))]
pub fn evaluation_fault(
    store: &StoreRef,
    root: Edge,
    setting: &[u8],
    work: &mut [Index],
) -> Result<(), Refusal>
    ensures { fault_of result ≡ evaluation_fault limits (held store.now) root setting.now }
{
    if !rules::keeps_rules(store, store.count, work) {
        return Err(Refusal::BrokenStore);
    }
    if !is_root(store.count, root) || !is_setting(store.levels, setting) {
        return Err(Refusal::BadRootOrSetting);
    }
    Ok(())
}

// What an edge answers at a setting. `work` is for the check of the store: of any length, and zeros afterwards.
pub fn evaluate(
    store: &StoreRef,
    root: Edge,
    setting: &[u8],
    work: &mut [Index],
) -> Result<bool, Refusal>
    ensures { EvaluationPromise (held store.now) root (seen setting) (borrowed work) result }
{
    let checked = evaluation_fault(store, root, setting, work);
    work.fill(0);
    checked?;
    Ok(eval_root(store, setting, root))
}
