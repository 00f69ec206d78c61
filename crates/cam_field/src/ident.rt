ghost use Rattle.std.specs.Prelude.{◌≡◌, ◌↔◌, IsTrue};
ghost use Rattle.cam_field.specs.Ident.{ident_words, is_uuid};

/// The identity of a controllee or of a controller, as a packet carries it behind its message ID.
#[derive(Clone, Copy, Debug, PartialEq, Eq, Hash)]
pub enum Ident {
    /// No identity: no word.
    None,
    /// An identifier of one word.
    Word(u32),
    /// A universally unique identifier, in four words, the first of them the highest.
    Uuid([u32; 4]),
}

/// Whether two identities are the same: of one form, and word for word equal.
pub fn same_ident(first: &Ident, second: &Ident) -> bool
    ensures equal { IsTrue result ↔ (first.now ≡ second.now) }

    // Of two UUIDs, or of two that are none, the words decide.
    ensures words { is_uuid first.now ≡ is_uuid second.now
        → (IsTrue result ↔ (ident_words first.now ≡ ident_words second.now)) }
{
    first == second
}
