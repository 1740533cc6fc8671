// The figures of the standing table, as `Limits` of the definitions has them, named once for all code that asks for them.
pub const MAX_PERIOD: u32 = 60000;

pub const MAX_TASKS: usize = 32;

pub const MAX_INPUT: usize = 16384;
