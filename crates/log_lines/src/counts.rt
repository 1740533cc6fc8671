// What the ended lines make of a log: the lines counted, the first of another form, the first that disagrees, the ticks that passed.
ghost use Rattle.std.specs.Prelude.{◌≡◌};
ghost use Rattle.model.specs.Image.{decode};
ghost use Rattle.log_model.specs.Reading as defined;
ghost use Rattle.log_lines.specs.Running.{Counts};

use super::Running;
use image::layout::{IMAGE_SIZE, LIVE_COUNT_AT, RECORD_SIZE, RECORDS_AT, STATION_AT};
use model::limits::{MAX_LIVE, MAX_STATIONS};

// The number after a line's. Ruled out: 0 after any line but the last that is counted; 1 after that one.
#[tactic(auto, unfolding(log_model::specs::Reading::next_line))]
fn next_line(k: u64) -> u64
    ensures { result ≡ defined.next_line k }
{
    k.checked_add(1).unwrap_or(0)
}

impl Running<'_> {
    // Whether there is nothing left to find. Ruled out: a log that differs counted as settled; one of eight stations.
    #[tactic(auto, unfolding(log_model::specs::Reading::settled))]
    pub fn settled(&self) -> bool
        ensures { result ≡ defined.settled self.now.rerun }
    {
        (self.rerun.line == 0) | (self.rerun.refused != 0) | (MAX_STATIONS < self.rerun.stations)
    }

    // A line of another form. Ruled out: the number of the line after it; a line more counted.
    #[tactic(auto, unfolding(log_model::specs::Reading::refused_here))]
    pub fn refused_here(&mut self)
        ensures { Counts self.old (defined.refused_here self.old.rerun) self.new }
    {
        self.rerun.refused = self.rerun.line;
    }

    // A line that is passed over. Ruled out: a line that is not counted; one that counts as a difference.
    #[tactic(auto, unfolding(log_model::specs::Reading::passed_by))]
    pub fn passed_by(&mut self)
        ensures { Counts self.old (defined.passed_by self.old.rerun) self.new }
    {
        self.rerun.line = next_line(self.rerun.line);
    }

    // The first line opens a cabinet of n stations. Ruled out: the stations of an earlier one; the first line's number for the next.
    #[tactic(auto, unfolding(log_model::specs::Reading::opened_with))]
    pub fn opened_with(&mut self, n: u32)
        ensures { Counts self.old (defined.opened_with n self.old.rerun) self.new }
    {
        self.rerun.line = next_line(self.rerun.line);
        self.rerun.stations = n;
    }

    // A line that was compared. Ruled out: the next line's number for one that disagrees; a line that disagrees passed over.
    #[tactic(auto, unfolding(log_model::specs::Reading::compared_by))]
    pub fn compared_by(&mut self, same: bool)
        ensures { Counts self.old (defined.compared_by same self.old.rerun) self.new }
    {
        self.rerun.differs = if same { 0 } else { self.rerun.line };
        self.rerun.line = next_line(self.rerun.line);
    }

    // A tick that passed. Ruled out: a tick of an idle station counted; a tick counted for station 1 alone.
    #[tactic(auto, unfolding(log_model::specs::Reading::tick_passed))]
    pub fn tick_passed(&mut self, here: [bool; 8])
        ensures { Counts self.old (defined.tick_passed here self.old.rerun) self.new }
    {
        self.rerun.ticks = one_more(self.rerun.ticks);
        self.rerun.busy = counted(here, self.rerun.busy);
    }
}

// The stations where an order is, of any image: it has room for 32 records, whatever it says. Ruled out: a station counted from 0; those of
// the first order alone; 33 records of 33, or 31 of 32.
pub fn occupied(image: &[u8; IMAGE_SIZE]) -> [bool; 8]
    ensures { result ≡ defined.occupied (decode image.now).orders }
{
    let mut here = [false; 8];
    for i in 0..usize::from(image[LIVE_COUNT_AT].min(MAX_LIVE)) {
        let station = usize::from(image[RECORDS_AT + RECORD_SIZE * i + STATION_AT]);
        if (1 <= station) & (station <= 8) {
            here[station - 1] = true;
        }
    }
    here
}

// A figure one higher. Ruled out: 0 after the largest; the figure as it was.
#[tactic(auto, unfolding(log_model::specs::Reading::one_more))]
fn one_more(x: u32) -> u32
    ensures { result ≡ defined.one_more x }
{
    x.saturating_add(1)
}

// A tick more for each station where an order is. Ruled out: a tick more for each; a tick for the station after it.
fn counted(here: [bool; 8], mut busy: [u32; 8]) -> [u32; 8]
    ensures { result ≡ defined.counted here busy }
{
    for (k, here) in here.iter().enumerate() {
        if *here {
            busy[k] = one_more(busy[k]);
        }
    }
    busy
}
