// The figures of a log, as `Limits` of the definitions has them, named once for all code that asks for them.
pub const MOST_8: u32 = 255;

pub const MOST_16: u32 = 65535;

pub const MOST_32: u32 = 4294967295;

pub const MAX_LINE: usize = 220;

pub const LAST_LINE: u64 = 18446744073709551615;
