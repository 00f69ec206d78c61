ghost use Rattle.std.specs.Prelude.{◌≡◌, ◌*◌, length, IfOk, IfErr};
ghost use Rattle.vrt_words.specs.Sizes.{IsOtherSize};

use crate::place::Place;

/// Whether a datagram has so many words, and no byte more.
///
/// `Err` at the number of whole words where bytes are missing, and at the size where there are more.
#[inline(always)]
pub fn check_size(bytes: &[u8], size: u16) -> Result<(), Place>
    ensures right { IfOk result (λ _. length bytes.now ≡ 4 * size) }
    ensures other { IfErr result (λ place. IsOtherSize size bytes.now place.word) }
{
    let wanted = 4 * usize::from(size);
    if bytes.len() == wanted {
        return Ok(());
    }
    Err(Place {
        word: (bytes.len().min(wanted) / 4) as u32,
    })
}
