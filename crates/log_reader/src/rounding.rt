// The last column of the rerun, and its rounding (document 02, (iv)). The library divides down and up, and not to nearest.
ghost use Rattle.std.specs.Prelude.{◌≡◌};
ghost use Rattle.log_model.specs.Rounding as defined;

// "busy ticks × 1,000 / all ticks, rounded to nearest, a half upward; 0 when no tick passed". Ruled out: 666 for two of three ticks; 0 for
// one of 2,000.
pub fn thousandths(busy: u32, all: u32) -> u64
    ensures { result ≡ defined.thousandths busy all }
{
    if all == 0 {
        return 0;
    }
    let whole = u64::from(all);
    let share = u64::from(busy) * 1000;
    share / whole + u64::from(whole <= 2 * (share % whole))
}
