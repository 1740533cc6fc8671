// The response of a task over plain numbers: the rows of the tasks.
ghost use Rattle.std.specs.Prelude.{◌≡◌, ◌*◌, ◌≤◌, ◌<◌, true};
ghost use Rattle.plan_model.specs.Limits.{max_period, max_tasks};
ghost use Rattle.plan_model.specs.Response.{releases as releasesOf, response_from};
ghost use Rattle.plan_core.specs.Ranged.{ranged};
ghost use Rattle.plan_core.specs.Response.{max_share, share_of, interference_of, step_of};

use super::table::{Row, Table};

impl Row {
    // How many releases of a task count against the response r: those whose stay can overlap, in r + deadline - 1 ticks, at most
    // 119,998. By `div_ceil`, which tests the remainder, a plan of many steps takes 1 to 10 % longer, by where the loop lies in memory. Ruled
    // out: those of r ticks alone; the quotient rounded down; one release more where the period divides the ticks.
    fn releases(&self, r: u32) -> u32
        requires { (r < max_period) × (ranged self.now ≡ true) }
        ensures { (result ≡ releasesOf r self.now.deadline self.now.period) × (result < max_period) }
    {
        let ticks = r + self.deadline - 1;
        (ticks + (self.period - 1)) / self.period
    }

    // What one task adds: its releases, each at its largest cost.
    fn share(&self, r: u32) -> u64
        requires { (r < max_period) × (ranged self.now ≡ true) }
        ensures { (result ≡ share_of r self.now) × (result ≤ max_share) }
    {
        u64::from(self.releases(r) * self.cost)
    }
}

impl Table {
    // What all tasks but task t add to the response r. Ruled out: the own task counted; its deadline in place of another task's.
    fn interference(&self, t: usize, r: u32) -> u64
        requires { r < max_period }
        ensures { (result ≡ interference_of self.now.rows.items t r) × (result ≤ max_share * max_tasks) }
    {
        let mut sum = 0;
        for (i, row) in self.rows.as_slice().iter().enumerate() {
            if i != t {
                sum += row.share(r);
            }
        }
        sum
    }

    // The R at which the repetition ends: "the first R that repeats", or "the first R not below the deadline". The base is the
    // first R, and tested as any other. Below the deadline R fits 32 bits; the last R may not. Ruled out: late before the first
    // step; the R before the one that ends it.
    pub fn response(&self, t: usize, base: u32, deadline: u32) -> u64
        requires { deadline ≤ max_period }
        ensures { result ≡ response_from (step_of self.now.rows.items t base) deadline base }
    {
        let first = u64::from(base);
        let limit = u64::from(deadline);
        let mut r = first;
        let settled = loop {
            if limit <= r {
                break r;
            }
            let next = first + self.interference(t, r as u32);
            if next == r {
                break r;
            }
            r = next;
        };
        settled
    }
}
