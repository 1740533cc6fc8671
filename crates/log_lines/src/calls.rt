// "It runs the log from a fresh cabinet": the call that a line records is made, and what it gives compared with what is recorded.
ghost use Rattle.log_model.specs.Lines.{advanced, offered};
ghost use Rattle.log_model.specs.Reading.{ran_line};
ghost use Rattle.log_lines.specs.Recorded.{line_as};
ghost use Rattle.log_lines.specs.Running.{ran_of, Leaves};

use super::Running;
use super::counts::occupied;
use super::fields::Recorded;
use dispatcher::advance::dispatcher_advance;
use dispatcher::offer::dispatcher_offer;
use image::block::order_block;
use image::layout::{REPLY_SIZE, REPLY_TICKET_AT};
use image::reader::u32_at;
use model::Block;

impl Running<'_> {
    // An advance, recorded with the ticket out: "a `T` whose advance is declined disagrees". Ruled out: a declined advance that agrees; a tick
    // counted after it.
    pub fn run_advance(&mut self, ticket: u32)
        ensures { Leaves self.old (ran_line (ran_of self.old) (advanced ticket)) self.new }
    {
        let here = occupied(self.image);
        let mut reply = [0; REPLY_SIZE];
        let number = dispatcher_advance(self.image, &mut reply);
        let out = u32_at(&reply, REPLY_TICKET_AT);
        if number != 0 {
            return self.compared_by(false);
        }
        self.tick_passed(here);
        self.compared_by(out == ticket);
    }

    // An offer, recorded with its number and its ticket. Ruled out: an offer that agrees by its number alone; one that counts a tick.
    pub fn run_offer(&mut self, order: Block, number: u32, ticket: u32)
        ensures { Leaves self.old (ran_line (ran_of self.old) (offered order.due_in order.ranks order.costs number ticket)) self.new }
    {
        let block = order_block(order);
        let mut reply = [0; REPLY_SIZE];
        let given = dispatcher_offer(self.image, &block, &mut reply);
        let got = u32_at(&reply, REPLY_TICKET_AT);
        self.compared_by((given == number) & (got == ticket));
    }

    // The call that a line records.
    pub fn run(&mut self, call: Recorded)
        ensures { Leaves self.old (ran_line (ran_of self.old) (line_as call)) self.new }
    {
        match call {
            Recorded::Offered {
                order,
                number,
                ticket,
            } => self.run_offer(order, number, ticket),
            Recorded::Advanced { ticket } => self.run_advance(ticket),
        }
    }
}
