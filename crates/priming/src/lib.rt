// Working memory prepared for the plans after a setting, if it is a plan.
// The function is for the crates above, which have checked what it requires.

#![tactic(auto)]

ghost use Rattle.priming.specs.Priming.{Spare, Primed};

// Prepares the ways of a setting and the index of the half-edges, if the setting is a plan of an accepted table. Says whether it is.
pub fn prime(
    basins: u16,
    kinds: &[u8],
    a: &[u16],
    b: &[u16],
    setting: &[u8],
    ways: &mut [u8],
    head: &mut [u16],
    next: &mut [u16],
) -> bool
    requires { Spare kinds.now ways.old head.old next.old }
    ensures { Primed basins kinds.now a.now b.now setting.now
        ways.new head.new next.new result }
{
    if a.len() != kinds.len() {
        return false;
    }
    if b.len() != kinds.len() {
        return false;
    }
    if let Ok(true) = planner_rows::check(basins, kinds, a, b, setting) {
        tables::orient(kinds, setting, ways);
        half_edges::index(basins as usize, a, b, head, next);
        true
    } else {
        false
    }
}
