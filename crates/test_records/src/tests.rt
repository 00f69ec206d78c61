use super::*;

// Where a packet with this word is refused: at 4 where the word is odd, and at 5 where it is 0.
fn place_with(word: u32) -> Option<u32> {
    if word == 0 {
        Some(5)
    } else if word % 2 == 1 {
        Some(4)
    } else {
        None
    }
}

#[test]
fn right_words_are_refused_nowhere_and_wrong_ones_at_the_index(rt: HostRuntime) {
    assert!(rt; is_edge(4, &[2, 6], &[1, 7], place_with));
    assert!(rt; is_edge(4, &[], &[], place_with));
    assert!(rt; !is_edge(4, &[2, 1], &[1], place_with));
    assert!(rt; !is_edge(4, &[2], &[1, 2], place_with));
    assert!(rt; !is_edge(4, &[2], &[1, 0], place_with));
}
