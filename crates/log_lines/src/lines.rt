// A line that has ended (document 02, (iv)): "first `N` and the station count, then a line `O` .. or a line `T`".
ghost use Rattle.std.specs.Prelude.{◌≤◌};
ghost use Rattle.model.specs.Limits.{max_stations};
ghost use Rattle.log_model.specs.Reading as defined;
ghost use Rattle.log_lines.specs.Running.{ran_of, Leaves};

use super::Running;
use super::fields::{call_in, stations_in};
use dispatcher::open::dispatcher_open;
use image::layout::REPLY_SIZE;

impl Running<'_> {
    // The first line: the station count, and a fresh cabinet of so many. Ruled out: a cabinet of nine stations; an image that changes at a
    // refusal.
    fn first_line(&mut self, line: &[u8])
        ensures { Leaves self.old (defined.first_line (ran_of self.old) line.now) self.new }
    {
        let Some(n) = stations_in(line) else {
            return self.refused_here();
        };
        let mut reply = [0; REPLY_SIZE];
        dispatcher_open(self.image, n, &mut reply);
        self.opened_with(n);
    }

    // A later line. Ruled out: a line of another letter passed over, or one that has not the form; a call after a line that disagreed.
    fn call_line(&mut self, line: &[u8])
        requires { self.old.rerun.stations ≤ max_stations }
        ensures { Leaves self.old (defined.call_line (ran_of self.old) line.now) self.new }
    {
        let Some(call) = call_in(self.rerun.stations as usize, line) else {
            return self.refused_here();
        };
        if self.rerun.differs != 0 {
            return self.passed_by();
        }
        self.run(call);
    }

    // Any line. Ruled out: a line after one of another form that is counted; a call on the first line.
    pub fn line_ended(&mut self, line: &[u8])
        ensures { Leaves self.old (defined.line_ended (ran_of self.old) line.now) self.new }
    {
        if self.settled() {
            return;
        }
        if self.rerun.line == 1 {
            return self.first_line(line);
        }
        self.call_line(line);
    }
}
