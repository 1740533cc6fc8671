// Plan over plain numbers: its questions, and the figures.
ghost use Rattle.std.specs.Prelude.{◌≡◌};
ghost use Rattle.plan_core.specs.ByValue.{core_of};

use super::figures::Figure;
use super::refusal::Refusal;
use super::table::Table;
use arrayvec::ArrayVec;
use model::limits::MAX_STATIONS;
use plan_model::Task;
use plan_model::limits::MAX_TASKS;

// The questions in their order, and the figures where none is answered "no". Ruled out: 18 before 17; 17 of more than 32 tasks left out.
pub fn core(tasks: &[Task], n: u32) -> Result<ArrayVec<Figure, MAX_TASKS>, Refusal>
    ensures { result ≡ core_of n tasks.now }
{
    if !(1..=MAX_STATIONS).contains(&n) {
        return Err(Refusal::Stations);
    }
    if !(1..=MAX_TASKS).contains(&tasks.len()) {
        return Err(Refusal::Count);
    }
    let table = Table::of(tasks, n as usize)?;
    Ok(table.figures())
}
