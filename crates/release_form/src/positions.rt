ghost use Rattle.std.specs.Prelude.{◌≡◌, ◌+◌, ◌*◌, ◌≤◌, ◌^◌, length, IfSome, IfNone};
ghost use Rattle.release_form.specs.Positions.{word, double, quadruple};
ghost use Rattle.release_form.specs.Layout.{IsPortAt, IsStampAt};

use vrt_time::Stamp;
pub(crate) use vrt_words::word_in;

/// The number in two words, the high one first.
pub(crate) fn double_in(bytes: &[u8], index: usize) -> u64
    requires { 4 * index + 8 ≤ length bytes.now }
    ensures { result ≡ double bytes.now index }
{
    let high = u64::from(word_in(bytes, index));
    let low = u64::from(word_in(bytes, index + 1));
    (high << 32) + low
}

/// The number in four words, the high ones first.
pub(crate) fn quadruple_in(bytes: &[u8], index: usize) -> u128
    requires { 4 * index + 16 ≤ length bytes.now }
    ensures { result ≡ quadruple bytes.now index }
{
    let high = u128::from(double_in(bytes, index));
    let low = u128::from(double_in(bytes, index + 2));
    (high << 64) + low
}

/// The port in a word. `None` exactly where it has more than 16 bits.
pub(crate) fn port_in(bytes: &[u8], index: usize) -> Option<u16>
    requires { 4 * index + 4 ≤ length bytes.now }
    ensures port { IfSome result (λ port. IsPortAt port bytes.now index) }
    ensures none { IfNone result (2 ^ 16 ≤ word bytes.now index) }
{
    let word = word_in(bytes, index);
    if word > 0xFFFF {
        return None;
    }
    Some(word as u16)
}

/// The stamp in three words. `None` exactly where its picoseconds are a whole second or more.
pub(crate) fn stamp_in(bytes: &[u8], index: usize) -> Option<Stamp>
    requires { 4 * index + 12 ≤ length bytes.now }
    ensures stamp { IfSome result (λ stamp. IsStampAt stamp bytes.now index) }
    ensures none { IfNone result (10 ^ 12 ≤ double bytes.now (index + 1)) }
{
    Stamp::of_picos(word_in(bytes, index), double_in(bytes, index + 1))
}
