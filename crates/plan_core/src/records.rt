// Figures into a task record.
ghost use Rattle.std.specs.Prelude.{◌≡◌};
ghost use Rattle.plan_model.specs.Response.{verdict_of};
ghost use Rattle.plan_model.specs.Plan.{with_figures};

use super::figures::Figure;
use plan_model::{Task, Verdict};

// "On time means R repeats below the deadline": an R that ends the sequence below it repeats. Ruled out: on time at the
// deadline.
fn verdict(deadline: u32, response: u64) -> Verdict
    ensures { result ≡ verdict_of deadline response }
{
    if u64::from(deadline) <= response {
        Verdict::Late
    } else {
        Verdict::OnTime
    }
}

// A record with its figures; what was asked stays. Ruled out: the verdict by the base; the verdict by the response from before.
pub fn fill_task(x: &mut Task, figure: Figure)
    ensures { x.new ≡ with_figures x.old figure.base figure.response }
{
    x.base = figure.base;
    x.response = figure.response;
    x.verdict = verdict(x.deadline, figure.response);
}
