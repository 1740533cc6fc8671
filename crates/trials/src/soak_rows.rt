// What a long run carries from call to call, and the row that is printed of it.
ghost use Rattle.std.specs.Prelude.{◌≡◌, ◌≤◌};
ghost use Rattle.lists.specs.Stored.{Put};
ghost use Rattle.text.specs.Printed.{Printed, Room};
ghost use Rattle.image_text.specs.Report.{spaced};
ghost use Rattle.trials.specs.Digest.{folded, digest_of};
ghost use Rattle.trials.specs.Run.{start_of, more, counted};
ghost use Rattle.trials.specs.Row.{figures, row};

use text::Text;

// The generator's seed, the calls made, the orders accepted and out, the calls declined by each number, and a digest of all
// replies and images.
#[derive(Clone, Copy, Default)]
pub struct Run {
    pub seed: u32,
    pub calls: u32,
    pub accepted: u32,
    pub out: u32,
    pub six: u32,
    pub seven: u32,
    pub ten: u32,
    pub eleven: u32,
    pub twelve: u32,
    pub digest: u32,
}

impl Run {
    // A run before its first call.
    #[tactic(auto, unfolding(crate::specs::Run::start_of))]
    pub fn start(seed: u32) -> Run
        ensures { result ≡ start_of seed }
    {
        Run {
            seed,
            digest: 1,
            ..Run::default()
        }
    }

    // A run after one call more. Ruled out: a decline counted under another number; a call that is not counted.
    #[tactic(auto, unfolding(crate::specs::Run::counted))]
    pub fn count(self, seed: u32, accepted: bool, out: bool, number: u32, digest: u32) -> Run
        ensures { result ≡ counted self seed accepted out number digest }
    {
        Run {
            seed,
            calls: plus(self.calls, true),
            accepted: plus(self.accepted, accepted),
            out: plus(self.out, out),
            six: plus(self.six, number == 6),
            seven: plus(self.seven, number == 7),
            ten: plus(self.ten, number == 10),
            eleven: plus(self.eleven, number == 11),
            twelve: plus(self.twelve, number == 12),
            digest,
        }
    }

    // The figures of a run in a cabinet of n stations.
    #[tactic(auto, unfolding(crate::specs::Row::figures))]
    pub fn values(self, n: u32, clock: u32, live: u32) -> [u32; 12]
        ensures { result ≡ figures n clock live self }
    {
        [
            n,
            self.calls,
            clock,
            live,
            self.accepted,
            self.out,
            self.six,
            self.seven,
            self.ten,
            self.eleven,
            self.twelve,
            self.digest,
        ]
    }
}

#[tactic(auto, unfolding(crate::specs::Run::more))]
fn plus(count: u32, yes: bool) -> u32
    ensures { result ≡ more count yes }
{
    count.wrapping_add(u32::from(yes))
}

#[tactic(auto, unfolding(crate::specs::Digest::folded))]
fn fold(digest: u32, byte: u8) -> u32
    ensures { result ≡ folded digest byte }
{
    ((u64::from(digest) * 16777619 + u64::from(byte)) % 4294967291) as u32
}

// The digest with more bytes. Ruled out: the last byte left out; the bytes added up, so that their order does not matter.
pub fn fold_all(digest: u32, bytes: &[u8]) -> u32
    ensures { result ≡ digest_of digest bytes.now }
{
    bytes.iter().fold(digest, |sum, byte| fold(sum, *byte))
}

// Each value after a space. Ruled out: one value less; the values in another order.
fn put_values(text: &mut Text<'_>, values: &[u32])
    requires { Room text.old (spaced values.now) }
    ensures { Printed text.old (spaced values.now) text.new }
{
    for v in values {
        text.figure(b" ", u64::from(*v));
    }
}

// The row of a run, and how many bytes of the buffer it takes. Ruled out: a row that no line feed ends; the digest left out.
pub fn put_row(out: &mut [u8; 160], values: [u32; 12]) -> usize
    ensures put { Put out.old 0 (row values) result out.new }
    ensures within { result ≤ 160 }
{
    let mut text = Text::new(out);
    text.bytes(b"cabinet");
    put_values(&mut text, &values);
    text.byte(b'\n');
    text.at
}
