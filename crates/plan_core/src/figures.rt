// The figures of every task, over plain numbers.
ghost use Rattle.std.specs.Prelude.{◌≡◌};
ghost use Rattle.plan_core.specs.Figures.{figures_of};

use super::table::Table;
use arrayvec::ArrayVec;
use plan_model::limits::MAX_TASKS;

// What plan fills in; the verdict follows from deadline and response.
#[derive(Clone, Copy, Debug, Default, PartialEq, Eq)]
pub struct Figure {
    pub base: u32,
    pub response: u64,
}

impl Table {
    // The figures of the tasks. Ruled out: a base without the stage maxima; a response held against the period.
    pub fn figures(&self) -> ArrayVec<Figure, MAX_TASKS>
        ensures { result.items ≡ figures_of self.now.rows.items self.now.stages }
    {
        let mut figures = ArrayVec::new();
        for (i, row) in self.rows.as_slice().iter().enumerate() {
            let base = row.cost + self.stages;
            let response = self.response(i, base, row.deadline);
            figures.push(Figure { base, response });
        }
        figures
    }
}
