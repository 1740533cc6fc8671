// The figures of documents 01 and 02, as `Limits` of the definitions has them, named once for all code that asks for them.
pub const MAX_STATIONS: u32 = 8;

pub const MAX_COST: u16 = 6000;

pub const MAX_DUE_IN: u64 = 60000;

pub const DEFAULT_DUE_IN: u64 = 9000;

pub const MAX_LIVE: u8 = 32;

pub const MAX_FORMAT: u32 = 10;

pub const LAST_TICK: u32 = 4000000000;

pub const LAST_TICKET: u32 = 4294967295;
