// The task set as plain numbers.
ghost use Rattle.std.specs.Prelude.{◌≡◌, ◌-◌, ◌*◌, ◌≤◌, true, false, length, MatchResult};
ghost use Rattle.model.specs.Limits.{max_stations, max_cost};
ghost use Rattle.model.specs.Lists.{all, total};
ghost use Rattle.plan_model.specs.Limits.{max_tasks};
ghost use Rattle.plan_model.specs.Plan.{in_range};
ghost use Rattle.plan_core.specs.Ranged.{ranged};

use super::refusal::Refusal;
use arrayvec::ArrayVec;
use plan_model::Task;
use plan_model::limits::{MAX_PERIOD, MAX_TASKS};

// What the response figures need of a task: its period, its deadline and its largest cost.
#[derive(Clone, Copy, Debug, Default, PartialEq, Eq)]
pub struct Row {
    pub period: u32,
    pub deadline: u32,
    pub cost: u32,
}

// What they need of a list of tasks: of each its row, and of all the largest costs at the stations before the last, added up.
#[derive(Drop)]
pub struct Table {
    pub rows: ArrayVec<Row, MAX_TASKS>,
    pub stages: u32,
    pub ghost ranged: { all ranged rows.items ≡ true },
    pub ghost stages_high: { stages ≤ (max_stations - 1) * max_cost },
}

// Question 18 of one task, at the first stations. Ruled out: a deadline of 0 let pass; one above the period let pass.
fn in_range(x: &Task, stations: usize) -> bool
    requires { stations ≤ max_stations }
    ensures { result ≡ in_range stations x.now }
{
    (1..=MAX_PERIOD).contains(&x.period)
        && (1..=x.period).contains(&x.deadline)
        && super::costs::costs_in_range(&x.costs[..stations])
}

impl Row {
    ghost use Rattle.plan_core.specs.Table.{row_in};

    // The row of a task, or the answer to question 18 where the task is out of range.
    fn of(x: &Task, stations: usize) -> Result<Row, Refusal>
        requires { stations ≤ max_stations }
        ensures { result ≡ row_in stations x.now }
    {
        if !in_range(x, stations) {
            return Err(Refusal::Figures);
        }
        Ok(Row {
            period: x.period,
            deadline: x.deadline,
            cost: super::costs::largest_cost(&x.costs[..stations]),
        })
    }
}

// The largest costs at the stations before the last, added up; the row has 0 at the others. Ruled out: the sum without the seventh.
fn stage_sum(maxima: [u32; 8]) -> u32
    requires { total maxima ≤ (max_stations - 1) * max_cost }
    ensures { result ≡ total maxima }
{
    maxima.iter().sum()
}

impl Table {
    ghost use Rattle.plan_model.specs.Base.{stage_maxima};
    ghost use Rattle.plan_core.specs.Table.{rows_of};

    // The table of a list, or the answer to question 18 where a record is out of range. Ruled out: the maximum at the last station taken
    // along; a record out of range that leaves the table in range.
    pub fn of(tasks: &[Task], stations: usize) -> Result<Table, Refusal>
        requires { (length tasks.now ≤ max_tasks) × (stations ≤ max_stations) }
        ensures { MatchResult result
            (λ t. (all (in_range stations) tasks.now ≡ true) × (t.rows.items ≡ rows_of stations tasks.now) × (t.stages ≡ total (stage_maxima stations tasks.now)))
            (λ e. (e ≡ Refusal.Figures) × (all (in_range stations) tasks.now ≡ false)) }
    {
        let before = stations.saturating_sub(1);
        let mut rows = ArrayVec::new();
        let mut maxima = [0u32; 8];
        for task in tasks {
            rows.push(Row::of(task, stations)?);
            super::costs::larger_costs(&mut maxima, &task.costs[..before]);
        }
        Ok(Table {
            rows,
            stages: stage_sum(maxima),
        })
    }
}
