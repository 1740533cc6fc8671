// Figures of a row of eight entries: the largest, and the sum of those that count in the delay bound.
ghost use Rattle.std.specs.Prelude.{◌≡◌, ◌-◌, ◌<◌, take};
ghost use Rattle.model.specs.Lists.{total};
ghost use Rattle.model.specs.Lists as lists;

// The largest entry.
pub fn largest(costs: [u16; 8]) -> u32
    ensures { (result ≡ lists.largest costs) × (result < 65536) }
{
    let mut m: u16 = 0;
    for cost in &costs {
        m = m.max(*cost);
    }
    u32::from(m)
}

// The entries of the stations before n, added up.
pub fn before_last(n: u32, maxima: [u16; 8]) -> u32
    ensures { (result ≡ total (take (n - 1) maxima)) × (result < 524288) }
{
    maxima
        .iter()
        .take(n.saturating_sub(1) as usize)
        .map(|maximum| u32::from(*maximum))
        .sum()
}
