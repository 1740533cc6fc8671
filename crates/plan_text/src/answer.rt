// The answer about an input of the plan program (document 01, "The standing table"): whether it has the form, and the task set
// that it gives.
ghost use Rattle.std.specs.Prelude.{◌≡◌};
ghost use Rattle.plan_text.specs.Answer.{number_of};

use plan_model::Task;
use plan_model::limits::MAX_TASKS;

// The question of the form that was answered "no". `number_of` has document 01's number for each.
#[derive(Clone, Copy, Debug, PartialEq, Eq)]
pub enum Form {
    TooLong,
    NotStations,
    NotTasks,
}

// Document 01's number for a form. Ruled out: 0 for a "no"; one number for two forms.
impl From<Form> for u32 {
    ghost from_gives = { λ form number. number ≡ number_of form };

    fn from(form: Form) -> u32 {
        match form {
            Form::TooLong => 15,
            Form::NotStations => 16,
            Form::NotTasks => 17,
        }
    }
}

// What an input says whose form passed: N and the tasks, which stand in the first `count` places. An `ArrayVec` of these records is made and
// moved field by field: with it a text of 32 tasks took 0.6 µs of 4 longer.
#[derive(Drop)]
pub struct TaskSet {
    pub n: u32,
    pub count: usize,
    pub tasks: [Task; MAX_TASKS],
}
