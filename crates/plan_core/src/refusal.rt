// Why plan declines (document 01, "The standing table"): "It declines N by 14, a count outside 1 to 32 by 17, and figures out of range by 18".
ghost use Rattle.std.specs.Prelude.{◌≡◌};
ghost use Rattle.plan_core.specs.Refusal.{number_of};

// The question that was answered "no".
#[derive(Clone, Copy, Debug, PartialEq, Eq)]
pub enum Refusal {
    Stations,
    Count,
    Figures,
}

// Document 01's number for each. Ruled out: 0 for a "no"; one number for two questions.
impl From<Refusal> for u32 {
    ghost from_gives = { λ refusal number. number ≡ number_of refusal };

    fn from(refusal: Refusal) -> u32 {
        match refusal {
            Refusal::Stations => 14,
            Refusal::Count => 17,
            Refusal::Figures => 18,
        }
    }
}
