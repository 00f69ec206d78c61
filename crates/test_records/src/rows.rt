/// Whether a packet with any one of these words at its place is refused at this place, and with
/// `None` at no place, as `place_with` tells of the packet with a word.
fn have_place<F: Fn(u32) -> Option<u32>>(words: &[u32], place: Option<u32>, place_with: &F) -> bool
    requires { F.IsAlwaysCallable place_with.now }
{
    for word in words {
        if place_with(*word) != place {
            return false;
        }
    }
    true
}

/// Whether a packet with any word of the first list at the index is right, and with any of the
/// second is refused there. `place_with` tells where the packet with a word is refused, if it is.
pub fn is_edge<F: Fn(u32) -> Option<u32>>(
    index: u32,
    right: &[u32],
    wrong: &[u32],
    place_with: F,
) -> bool
    requires { F.IsAlwaysCallable place_with }
{
    have_place(right, None, &place_with) && have_place(wrong, Some(index), &place_with)
}
