// Document 01, "The image", and its order block and reply: the place of every field, counted from 0, as `Layout` of the model
// has it, named once for all code.
pub const IMAGE_SIZE: usize = 2128;

pub const MARK_W_AT: usize = 0;

pub const MARK_M_AT: usize = 1;

pub const MARK_C_AT: usize = 2;

pub const MARK_W: u8 = b'W';

pub const MARK_M: u8 = b'M';

pub const MARK_C: u8 = b'C';

pub const VERSION_AT: usize = 3;

pub const VERSION: u16 = 1;

pub const STATION_COUNT_AT: usize = 5;

pub const LIVE_COUNT_AT: usize = 6;

pub const HEADER_ZERO_AT: usize = 7;

pub const CLOCK_AT: usize = 8;

pub const NEXT_AT: usize = 12;

pub const SERVICES_AT: usize = 16;

pub const SERVICE_SIZE: usize = 8;

pub const SERVED_AT: usize = 0;

pub const LEFT_AT: usize = 4;

pub const SERVICE_ZERO_AT: usize = 6;

pub const RECORDS_AT: usize = 80;

pub const RECORD_SIZE: usize = 64;

pub const TICKET_AT: usize = 0;

pub const ACCEPTED_AT: usize = 4;

pub const DUE_AT: usize = 8;

pub const SUM_AT: usize = 12;

pub const STATION_AT: usize = 16;

pub const STATION_ZERO_AT: usize = 17;

pub const RANKS_AT: usize = 20;

pub const COSTS_AT: usize = 28;

pub const MAXIMA_AT: usize = 44;

pub const RECORD_ZERO_AT: usize = 60;

pub const BLOCK_SIZE: usize = 28;

pub const BLOCK_DUE_IN_AT: usize = 0;

pub const BLOCK_RANKS_AT: usize = 4;

pub const BLOCK_COSTS_AT: usize = 12;

pub const SHEET_SIZE: usize = 32;

pub const SHEET_FIXED_AT: usize = 0;

pub const SHEET_SPEEDS_AT: usize = 16;

pub const REPLY_SIZE: usize = 16;

pub const REPLY_NUMBER_AT: usize = 0;

pub const REPLY_TICKET_AT: usize = 4;

pub const REPLY_TICK_AT: usize = 8;

pub const REPLY_MARGIN_AT: usize = 12;
