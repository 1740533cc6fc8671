// The plan program's input (document 01, "The standing table"): "first line N, then one line a task". Any bytes have an answer:
// the tasks, or the first of questions 15 to 17 that is answered "no".
ghost use Rattle.std.specs.Prelude.{◌≡◌};
ghost use Rattle.plan_text.specs.Parsed.{parsed};

use super::answer::{Form, TaskSet};
use super::task_lines::{LINE_FEED, MOST, read_tasks};
use model::limits::MAX_STATIONS;
use plan_model::limits::MAX_INPUT;
use text::numbers::number_of;
use text::parts::first_part;

// Questions 15 to 17, of any bytes: "first "no" decides". Ruled out: 17 where the first line is no number of stations; a table
// for an input of 16,385 bytes.
pub fn parse(input: &[u8]) -> Result<TaskSet, Form>
    ensures { result ≡ parsed input.now }
{
    if MAX_INPUT < input.len() {
        return Err(Form::TooLong);
    }
    let (first, Some(rest)) = first_part(input, LINE_FEED) else {
        return Err(Form::NotStations); // no line feed ends the first line
    };
    let n = number_of(first, MOST).ok_or(Form::NotStations)?;
    if !(1..=MAX_STATIONS).contains(&n) {
        return Err(Form::NotStations);
    }
    read_tasks(rest, n)
}
