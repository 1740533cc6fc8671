// A task's costs at the first stations. "Costs beyond N are not read": who asks lends the costs up to there, and no more.
ghost use Rattle.std.specs.Prelude.{◌≡◌, ◌≤◌, length};
ghost use Rattle.model.specs.Limits.{max_stations, max_cost};
ghost use Rattle.model.specs.Lists as lists;

use model::limits::MAX_COST;

// The largest of some costs. Ruled out: the last of them.
pub fn largest_cost(costs: &[u32]) -> u32
    ensures { result ≡ lists.largest costs.now }
{
    costs.iter().fold(0, |top, cost| top.max(*cost))
}

// "costs 1 to 6,000". Ruled out: a cost of 0 let pass; one of 6,001 let pass.
pub fn costs_in_range(costs: &[u32]) -> bool
    ensures { result ≡ lists.all (lists.within 1 max_cost) costs.now }
{
    costs
        .iter()
        .all(|cost| (1..=u32::from(MAX_COST)).contains(cost))
}

// A row with the larger of two entries at each of the first stations. Ruled out: the smaller entries; the costs at stations after them.
pub fn larger_costs(maxima: &mut [u32; 8], costs: &[u32])
    requires { length costs.now ≤ max_stations }
    ensures { maxima.new ≡ lists.larger costs.now maxima.old }
{
    for (k, cost) in costs.iter().enumerate() {
        maxima[k] = (*cost).max(maxima[k]);
    }
}
