// The cabinet's C interface (document 01: "The cabinet's C firmware calls open, quote, offer and advance"): the calls of the crate
// `dispatcher` under the names of include/dispatcher.h, each with the promise that it has there.
#![tactic(auto)]

ghost use Rattle.model.specs.Calls.{open_call, quote_call, offer_call, quote_format_call, offer_format_call, advance_call};
ghost use Rattle.dispatcher.specs.Gives.{Gives};

// Neither a decline that writes into the image nor a reply written beside number 1 meets the promise.
#[unsafe(no_mangle)]
pub extern "C" fn dispatcher_open(image: &mut [u8], stations: u32, reply: &mut [u8]) -> u32
    ensures { Gives (open_call image.old stations reply.old) result image.new reply.new }
{
    dispatcher::open::dispatcher_open(image, stations, reply)
}

// Neither a ticket in the reply nor an order block that is a byte short taken meets the promise.
#[unsafe(no_mangle)]
pub extern "C" fn dispatcher_quote(image: &[u8], order: &[u8], reply: &mut [u8]) -> u32
    ensures { Gives (quote_call image.now order.now reply.old) result image.now reply.new }
{
    dispatcher::offer::dispatcher_quote(image, order, reply)
}

// Neither a decline that writes into the image nor an acceptance that leaves it alone meets the promise.
#[unsafe(no_mangle)]
pub extern "C" fn dispatcher_offer(image: &mut [u8], order: &[u8], reply: &mut [u8]) -> u32
    ensures { Gives (offer_call image.old order.now reply.old) result image.new reply.new }
{
    dispatcher::offer::dispatcher_offer(image, order, reply)
}

// Neither a ticket in the reply nor 19 for the last format meets the promise.
#[unsafe(no_mangle)]
pub extern "C" fn dispatcher_quote_format(
    image: &[u8],
    format: u32,
    due_in: u32,
    rank: u8,
    sheet: &[u8],
    reply: &mut [u8],
) -> u32
    ensures { Gives (quote_format_call image.now (record { format = format; due_in = due_in; rank = rank; sheet = sheet.now }) reply.old) result image.now reply.new }
{
    dispatcher::format::dispatcher_quote_format(image, format, due_in, rank, sheet, reply)
}

// Neither the block of another format accepted nor a decline that writes into the image meets the promise.
#[unsafe(no_mangle)]
pub extern "C" fn dispatcher_offer_format(
    image: &mut [u8],
    format: u32,
    due_in: u32,
    rank: u8,
    sheet: &[u8],
    reply: &mut [u8],
) -> u32
    ensures { Gives (offer_format_call image.old (record { format = format; due_in = due_in; rank = rank; sheet = sheet.now }) reply.old) result image.new reply.new }
{
    dispatcher::format::dispatcher_offer_format(image, format, due_in, rank, sheet, reply)
}

// Neither a decline that writes into the image nor a clock that goes past its end meets the promise.
#[unsafe(no_mangle)]
pub extern "C" fn dispatcher_advance(image: &mut [u8], reply: &mut [u8]) -> u32
    ensures { Gives (advance_call image.old reply.old) result image.new reply.new }
{
    dispatcher::advance::dispatcher_advance(image, reply)
}
