ghost use Rattle.std.specs.Prelude.{◌≡◌, ◌≤◌, ◌<◌, ◌^◌, ◌++◌, drop, codes};
ghost use Rattle.std.specs.Fmt.{decimal};

use std::marker::Model;
use vrt_fields::fill_decimal;

/// The number of a frame, with the words `frame N` that its line begins with. From one number to
/// the next, mostly the last digit alone changes.
#[derive(Debug, Drop)]
pub struct FrameWords {
    number: u64,
    words: [u8; 26],
    // Where the words start. They go on to the end.
    start: usize,
}

impl Model for FrameWords {
    ghost use Rattle.std.specs.Prelude.{ℕ};
    ghost use Rattle.difi_texts.specs.FrameWords.{AreFrameWords};

    ghost Value = { ℕ };

    ghost view = { λ frame. frame.number };

    ghost invariant = { λ frame. AreFrameWords frame.number frame.start frame.words };
}

impl FrameWords {
    ghost use Rattle.std.specs.Prelude.{◌≡◌, ◌≤◌, ◌<◌, ◌+◌, ◌^◌, ◌++◌, length, codes};
    ghost use Rattle.std.specs.Fmt.{decimal};

    /// Those of the frame in front of the first, which has the number 0.
    pub fn none() -> Self
        ensures { result ≡ 0 }
    {
        let mut words = [0; 26];
        let start = put_words(&mut words, 0);
        FrameWords {
            number: 0,
            words,
            start,
        }
    }

    /// Goes on to the next frame.
    #[inline]
    pub fn step(&mut self)
        requires { self.old + 1 < 2 ^ 64 }
        ensures { self.new ≡ self.old + 1 }
    {
        self.number += 1;
        if self.words[25] < b'9' {
            self.words[25] += 1;
        } else {
            self.start = put_words(&mut self.words, self.number);
        }
    }

    /// The number.
    #[inline]
    pub fn number(&self) -> u64
        ensures { result ≡ self.now }
    {
        self.number
    }

    /// The words.
    #[inline]
    pub fn as_slice(&self) -> &[u8]
        ensures words { result.now ≡ codes "frame " ++ decimal self.now }
        ensures few { length result.now ≤ 26 }
    {
        &self.words[self.start..]
    }
}

// Puts the words of a number at the end, and tells where they start.
fn put_words(words: &mut [u8; 26], number: u64) -> usize
    ensures within { result ≤ 20 }
    ensures text { drop result words.new ≡ codes "frame " ++ decimal number }
{
    let mut digits = [0; 20];
    let start = fill_decimal(&mut digits, number);
    words[6..].copy_from_slice(&digits);
    words[start..start + 6].copy_from_slice(b"frame ");
    start
}
