// Places for texts.
ghost use Rattle.run_in_memory.specs.Places.{IsFilled};

/// Puts a text to the front of a place, as far as it goes in, and answers how many bytes that is.
pub(crate) fn fill(place: &mut [u8], text: &[u8]) -> usize
    ensures { IsFilled place.old place.new result text.now }
{
    let n = text.len().min(place.len());
    place[..n].copy_from_slice(&text[..n]);
    n
}
