// A text that is being printed into a lent buffer. It stands in a file of its own, since the words of its methods' contracts name it.
ghost use Rattle.std.specs.Prelude.{◌≤◌, length};

// The buffer, and the place after the last byte printed.
#[derive(Drop)]
pub struct Text<'a> {
    pub out: &'a mut [u8],
    pub at: usize,
    ghost within: { at ≤ length out.now },
}
