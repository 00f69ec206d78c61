ghost use Rattle.std.specs.Prelude.{◌≡◌, ◌≢◌, ◌↔◌, ℕ, List, None, Some, slice_index};
ghost use Rattle.vrt_words.specs.Words.{AreBytes};
ghost use Rattle.vrt_words.specs.Begins.{IsDatagram};
ghost use Rattle.vrt_header.specs.Profile.{PacketProfile};
ghost use Rattle.ack_codec.specs.Ack.{IsAck};
ghost use Rattle.ack_codec.specs.declared.ack.Ack.{Ack};
ghost use Rattle.ack_codec.specs.Responses.{AreResponses, responses_of};
ghost use Rattle.vrt_fields.specs.declared.field.Field.{Field};
ghost use Rattle.vrt_fields.specs.FieldSet.{FieldValues, IsFieldSet, bit_in, index_of, value_of};

/// A datagram is one acknowledgement at most, and an acknowledgement has one datagram.
///
/// So `decode_ack` gives back what `encode_ack` wrote, and `encode_ack` writes again the very bytes
/// from which `decode_ack` read it.
pub fn one_to_one()
    ensures one_packet { (profile : PacketProfile) (a b : Ack) (bytes : List ℕ)
        → IsDatagram (IsAck profile) a bytes → IsDatagram (IsAck profile) b bytes → a ≡ b }
    ensures one_datagram { (profile : PacketProfile) (ack : Ack) (a b : List ℕ) → AreBytes a
        → AreBytes b
        → IsDatagram (IsAck profile) ack a → IsDatagram (IsAck profile) ack b → a ≡ b }
{}

/// One answer or `None` for each of the twelve fields makes responses: they list the fields that
/// have an answer, and tell it.
pub fn responses_of_answers()
    ensures rule { (answers : FieldValues) → IsFieldSet answers
        → AreResponses (responses_of answers) }
    ensures listed { (answers : FieldValues) (field : Field) → IsFieldSet answers
        → ((bit_in (responses_of answers).cif0 field ≡ 1) ↔ (value_of answers field ≢ None)) }
    ensures words { (answers : FieldValues) (field : Field) (word : ℕ) → IsFieldSet answers
        → value_of answers field ≡ Some word
        → slice_index (responses_of answers).words (index_of field) ≡ word }
{}
