// The variable order of an export: a permutation of the levels.
#![tactic(auto)]

ghost use Rattle.std.specs.Prelude.{◌≡◌, ◌≤◌, length, replicate};
ghost use Rattle.variable_order.specs.Order.{is_order, SeatsIf};

// Is the variable order a permutation of the levels? Then a list of zeros is filled with each level's variable, counted from 1.
pub fn is_order(levels: u16, order: &[u16], vars: &mut [u16]) -> bool
    requires levels_in_bounds { levels ≤ length vars.old }
    requires vars_value { vars.old ≡ replicate (length vars.old) 0 }
    ensures value { result ≡ is_order levels order.now }
    ensures seats_if { SeatsIf result order.now vars.new }
{
    if order.len() != levels as usize {
        return false;
    }
    for (v, l) in order.iter().enumerate() {
        if levels <= *l {
            return false;
        }
        if vars[*l as usize] != 0 {
            return false;
        }
        vars[*l as usize] = v as u16 + 1;
    }
    true
}
