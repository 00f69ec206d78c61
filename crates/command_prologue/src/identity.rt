ghost use Rattle.std.specs.Prelude.{◌≡◌, ◌+◌, ◌≤◌, true, length, take, drop};
ghost use Rattle.vrt_words.specs.Words.{words_of};
ghost use Rattle.cam_field.specs.Ident.{ident_words, ident_size};
ghost use Rattle.command_prologue.specs.CommandPrologue.{IsIdentity};

use cam_field::Ident;
use vrt_words::read_words;

/// How many words an identity takes that is there or not, and a UUID or not.
pub(crate) fn identity_size(named: bool, uuid: bool) -> usize
    ensures size { result ≡ ident_size named uuid }
    ensures most { result ≤ 4 }
{
    match (named, uuid) {
        (false, _) => 0,
        (true, false) => 1,
        (true, true) => 4,
    }
}

/// The identity in the words from `at` on.
pub(crate) fn identity_at(bytes: &[u8], at: usize, named: bool, uuid: bool) -> Ident
    requires there { at + ident_size named uuid ≤ length (words_of bytes.now) }
    requires form { uuid ≡ true → named ≡ true }
    ensures identity { IsIdentity named uuid result }
    ensures words { ident_words result
        ≡ take (ident_size named uuid) (drop at (words_of bytes.now)) }
{
    if !named {
        return Ident::None;
    }
    if uuid {
        let mut words = [0; 4];
        read_words(bytes, at, &mut words);
        Ident::Uuid(words)
    } else {
        let mut words = [0; 1];
        read_words(bytes, at, &mut words);
        Ident::Word(words[0])
    }
}
