//! The turns of an iteration.

ghost use Rattle.std.specs.Prelude.{◌≡◌, ◌+◌};
ghost use Rattle.dc_code.specs.Troubles.{Slots};
ghost use Rattle.dc_plain.specs.Views.{View};
ghost use Rattle.dc_meaning.specs.Acts as acts;
ghost use Rattle.dc_meaning.specs.Walking.{state_in, Walks};

use dc_int::Why;
use dc_meaning::Stop;

/// Spends one turn, at a line.
pub(crate) fn spend(turns: &mut u64, line: u32) -> Result<(), Stop>
    ensures { (own : Slots) (view : View) → Walks (λ done. done) (state_in own turns.old) view
        (λ call. acts.spend line) (state_in own turns.new) view result }
{
    if *turns == 0 {
        return Err(Stop::Failed {
            why: Why::Spent,
            line,
        });
    }
    *turns -= 1;
    Ok(())
}

/// How often the test of a loop can be made: there are no more rounds than turns, and behind the last
/// round it may be made once more.
pub(crate) fn most_tests(turns: u64) -> u128
    ensures { result ≡ turns + 1 }
{
    u128::from(turns) + 1
}
