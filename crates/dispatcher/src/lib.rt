// The cabinet's calls (document 01: "The cabinet's C firmware calls open, quote, offer and advance"); C has them by `dispatcher_c`. Each
// call decides its number first, and only then writes: the reply, and the image if it is done. Open's image, and header and entries
// after a tick, are written from here; an acceptance by `admission::acceptance` and the records after a tick by `tick::leaving`, which
// know the bytes of the lent image, too.
// Question 1 is asked in each of the six calls: of a closure that it may leave unrun the prover does not know what it leaves of what it captures.
#![tactic(auto)]

pub mod replies; // the bytes of a reply, and what a decline leaves of it
pub mod offer_parts; // quote and offer by their parts
pub mod format_parts; // what is asked of an order by format
pub mod advance_parts; // advance by its parts
pub mod open; // dispatcher_open
pub mod offer; // dispatcher_quote, dispatcher_offer
pub mod format; // dispatcher_quote_format, dispatcher_offer_format
pub mod advance; // dispatcher_advance
