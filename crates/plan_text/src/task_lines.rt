// The task lines of the plan program's input (document 01, "The standing table"): "one line a task, `period deadline cost1 ..
// costN`", "each line ended by a line feed".
ghost use Rattle.std.specs.Prelude.{◌≡◌, ◌≤◌};
ghost use Rattle.model.specs.Limits.{max_stations};
ghost use Rattle.text.specs.Parts.{line_feed, parts};
ghost use Rattle.plan_model.specs.Input.{task_of};
ghost use Rattle.plan_text.specs.TaskLines.{table_of};

use super::answer::{Form, TaskSet};
use plan_model::Task;
use plan_model::limits::MAX_TASKS;
use std::array;
use text::numbers::numbers_in;
use text::parts::first_part;

pub const LINE_FEED: u8 = b'\n';

// "unsigned decimals of 1 to 9 digits"
pub const MOST: u32 = 999999999;

// A line with the most numbers has a period, a deadline and eight costs.
const MAX_NUMBERS: usize = 10;

// Period and deadline, which stand before the costs.
const BEFORE_COSTS: usize = 2;

// The task of a line's numbers, which are zeros after the last cost. Plan fills in the other figures. Ruled out: the
// period for the deadline.
fn task_of(numbers: [u32; MAX_NUMBERS]) -> Task
    ensures { result ≡ task_of numbers }
{
    Task {
        period: numbers[0],
        deadline: numbers[1],
        costs: array::from_fn(|k| numbers[BEFORE_COSTS + k]),
        ..Task::default()
    }
}

// Question 17, "one to 32 task lines of that form", of n stations. Nothing may stand after the last line feed. Ruled out: a table where the last
// line is not ended; a table of no line.
pub fn read_tasks(input: &[u8], n: u32) -> Result<TaskSet, Form>
    requires { n ≤ max_stations }
    ensures { result ≡ table_of n (parts line_feed input.now) }
{
    let most = [MOST; MAX_NUMBERS];
    let most = &most[..BEFORE_COSTS + n as usize];
    let mut tasks = [Task::default(); MAX_TASKS];
    let mut count = 0;
    let mut left = input;
    while let (line, Some(rest)) = first_part(left, LINE_FEED) {
        if count == MAX_TASKS {
            return Err(Form::NotTasks);
        }
        let numbers = numbers_in(line, most).ok_or(Form::NotTasks)?;
        tasks[count] = task_of(numbers);
        count += 1;
        left = rest;
    }
    if count == 0 || !left.is_empty() {
        return Err(Form::NotTasks);
    }
    Ok(TaskSet { n, count, tasks })
}
