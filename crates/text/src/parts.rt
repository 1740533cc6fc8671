// The parts of a text between separators: the lines of an input, the words of a line.
ghost use Rattle.std.specs.Prelude.{◌≡◌, ◌∷◌, ◌<◌, length, IfSome};
ghost use Rattle.text.specs.Parts.{parts, parts_after};

// The first part of a text, and what follows the separator that ends it, if one does. Ruled out: a rest that begins with the separator; a part that a
// larger byte ends.
pub fn first_part(text: &[u8], separator: u8) -> (&[u8], Option<&[u8]>)
    ensures split { parts separator text.now ≡ result.0.now ∷ parts_after separator result.1 }
    ensures shorter { IfSome result.1 (λ rest. length rest.now < length text.now) }
{
    match text.iter().position(|b| *b == separator) {
        Some(end) => (&text[..end], Some(&text[end + 1..])),
        None => (text, None),
    }
}
