// Numbers into a byte buffer, the low byte first (document 01: "stored numbers little-endian"): a writer for each width,
// and one for rows of equal length. Offsets are the business of those who call. Each promise gives the whole buffer:
// neither another byte order nor a store outside the number's place meets it.
ghost use Rattle.std.specs.Prelude.{◌≡◌, ℕ, List, map, ◌+◌, ◌*◌, ◌≤◌, length};
ghost use Rattle.model.specs.Lists.{concat};
ghost use Rattle.model.specs.Bytes.{two_bytes, four_bytes};
ghost use Rattle.lists.specs.Stored.{Stored};

// The bytes of an array, as they stand.
#[tactic(auto, using(lists::proofs::Parts::stored_mid))]
pub fn put<const N: usize>(out: &mut [u8], at: usize, bytes: [u8; N])
    requires { at + N ≤ length out.old }
    ensures { Stored out.old at bytes.entry out.new }
{
    out[at..at + N].copy_from_slice(&bytes);
}

pub fn put_u16(out: &mut [u8], at: usize, half: u16)
    requires { at + 2 ≤ length out.old }
    ensures { Stored out.old at (two_bytes half) out.new }
{
    put(out, at, half.to_le_bytes());
}

pub fn put_u32(out: &mut [u8], at: usize, word: u32)
    requires { at + 4 ≤ length out.old }
    ensures { Stored out.old at (four_bytes word) out.new }
{
    put(out, at, word.to_le_bytes());
}

// What an image has rows of: the numbers of an order's costs, the entries of the stations, the records. All of one type
// are equally long.
pub trait Row: Copy {
    ghost SIZE: { ℕ };

    const SIZE: usize;

    ghost bytes: { Self → List ℕ };

    fn put(self, out: &mut [u8], at: usize)
        requires { at + SIZE ≤ length out.old }
        ensures stored { Stored out.old at (bytes self) out.new }
        ensures long { length (bytes self) ≡ SIZE };
}

impl Row for u16 {
    ghost SIZE = { 2 };

    const SIZE: usize = 2;

    ghost bytes = { two_bytes };

    fn put(self, out: &mut [u8], at: usize) {
        put_u16(out, at, self);
    }
}

// One after the other, from a place on. Neither a gap between two nor the first one left out meets the promise.
pub fn put_rows<T: Row>(out: &mut [u8], at: usize, rows: &[T])
    requires { at + T.SIZE * length rows.now ≤ length out.old }
    ensures stored { Stored out.old at (concat (map T.bytes rows.now)) out.new }
    ensures long { length (concat (map T.bytes rows.now)) ≡ T.SIZE * length rows.now }
{
    for (i, row) in rows.iter().enumerate() {
        row.put(out, at + T::SIZE * i);
    }
}
