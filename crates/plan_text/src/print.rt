// The plan program's output for any input bytes, into a lent buffer that always has room.
ghost use Rattle.std.specs.Prelude.{◌≡◌, ◌≤◌};
ghost use Rattle.lists.specs.Stored.{Put};
ghost use Rattle.plan_model.specs.Output.{plan_output};
ghost use Rattle.plan_text.specs.Planned.{planned_of};

use super::answer::TaskSet;
use super::input::parse;
use super::output::{put_refusal, put_table};
use plan_core::lent::plan;
use text::Text;

// The tasks of an input with their figures, or the number of the first question that is answered by "no". Ruled out: 14, which plan has for no
// station, where the form has not passed.
fn planned(input: &[u8]) -> Result<TaskSet, u32>
    ensures { result ≡ planned_of input.now }
{
    let TaskSet {
        n,
        count,
        mut tasks,
    } = parse(input)?;
    match plan(&mut tasks[..count], n) {
        0 => Ok(TaskSet { n, count, tasks }),
        refused => Err(refused),
    }
}

// What the program prints, and how many bytes of the buffer it takes: the table, or the number of the first question that is
// answered by "no". Ruled out: a table after a decline.
pub fn print_plan(input: &[u8], out: &mut [u8; 1024]) -> usize
    ensures put { Put out.old 0 (plan_output input.now) result out.new }
    ensures within { result ≤ 1024 }
{
    let mut text = Text::new(out);
    match planned(input) {
        Ok(set) => put_table(&mut text, &set.tasks[..set.count]),
        Err(number) => put_refusal(&mut text, number),
    }
    text.at
}
