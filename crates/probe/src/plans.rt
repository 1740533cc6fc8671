// Entry points for the benchmark over plan. No product has them.
ghost use Rattle.std.specs.Prelude.{◌≡◌, ◌≤◌};
ghost use Rattle.lists.specs.Stored.{Put};
ghost use Rattle.plan_model.specs.Output.{plan_output};
ghost use Rattle.plan_text.specs.Parsed.{parsed as parsed_of};
ghost use Rattle.probe.specs.Rounds.{number_after};

use plan_core::lent::plan;
use plan_model::limits::MAX_TASKS;
use plan_text::answer::TaskSet;
use plan_text::input::parse;

// What the plan program prints for an input.
pub fn plan_probe_text(input: &[u8], out: &mut [u8; 1024]) -> usize
    ensures put { Put out.old 0 (plan_output input.now) result out.new }
    ensures within { result ≤ 1024 }
{
    plan_text::print::print_plan(input, out)
}

// Plan over the task set of an input, so many times, each on the records as the one before left them. The number that the last
// one gives; that of the form where it does not pass, and 0 where there is no round.
pub fn plan_probe_rounds(input: &[u8], rounds: u32) -> u32
    ensures { result ≡ number_after rounds (parsed_of input.now) }
{
    let TaskSet {
        n,
        count,
        mut tasks,
    } = match parse(input) {
        Ok(set) => set,
        Err(form) => return u32::from(form),
    };
    let held = count.min(MAX_TASKS);
    let mut number = 0;
    for _ in 0..rounds {
        number = plan(&mut tasks[..held], n);
    }
    number
}
