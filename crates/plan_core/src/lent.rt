// "The standing table is lent as a list of task records": plan's thin entry walks it once the core has the figures.
ghost use Rattle.std.specs.Prelude.{◌≡◌, ◌++◌, take, drop};
ghost use Rattle.plan_model.specs.Plan.{plan_number, after_plan};

use super::by_value::core;
use super::records::fill_task;
use plan_model::Task;
use plan_model::limits::MAX_TASKS;

// "Plan fills base, response and verdict into them and returns its number". Any list and any n is taken. Ruled out: figures in the list
// after a decline; 0 for 33 records.
pub fn plan(tasks: &mut [Task], n: u32) -> u32
    ensures { (result ≡ plan_number n tasks.old) × (tasks.new ≡ after_plan n tasks.old) }
{
    let figures = match core(tasks, n) {
        Ok(figures) => figures,
        Err(refusal) => return u32::from(refusal),
    };
    let figures = figures.as_slice();
    // Of what a `zip` with `iter_mut` writes the prover knows nothing afterwards.
    for (i, task) in tasks.iter_mut().enumerate() {
        fill_task(task, figures[i]);
    }
    0
}

// Plan's number, which is what document 01 has plan return, and the array whose first records plan was lent, as it is then.
#[derive(Drop)]
pub struct Planned {
    pub number: u32,
    pub tasks: [Task; 32],
}

// Plan over the first records of an array, by value. The array has 32 records, and a larger count is all of them. Ruled out: the figures
// of 31 tasks for 32; a record after the first ones changed; 0 for the number.
pub fn plan_array(mut tasks: [Task; 32], count: usize, n: u32) -> Planned
    ensures { (result.number ≡ plan_number n (take count tasks)) × (result.tasks ≡ after_plan n (take count tasks) ++ drop count tasks) }
{
    let number = plan(&mut tasks[..count.min(MAX_TASKS)], n);
    Planned { number, tasks }
}
