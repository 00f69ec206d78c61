ghost use Rattle.std.specs.Prelude.{◌≡◌, ◌*◌, ◌<◌, ◌↔◌, IsTrue, length, IfOk, IfErr};
ghost use Rattle.difi_packet.specs.Packet.{value_of};
ghost use Rattle.difi_cmd.specs.Text.{IsAccepted, IsTurnedAway, IsJudgement};

use difi_packet::{Packet, classify, decode};
use difi_texts::Judgement;
use replay_form::RecordHead;

/// What is judged of the datagram of a frame.
pub(crate) fn judge(head: &RecordHead, datagram: &[u8]) -> Judgement
    ensures { IsJudgement head.now datagram.now result }
{
    if is_too_large(head, datagram) {
        return Judgement::TooLarge;
    }
    match classify(head.profile, datagram) {
        Ok((kind, stream)) => Judgement::Accepted { kind, stream },
        Err(place) => Judgement::Refused { word: place.word },
    }
}

/// The packet that the datagram of a frame is, or why it is turned away.
pub(crate) fn packet_in<'a>(head: &RecordHead, datagram: &'a [u8]) -> Result<Packet<'a>, Judgement>
    ensures packet { IfOk result (λ packet. IsAccepted head.now datagram.now (value_of packet)) }
    ensures turned { IfErr result (IsTurnedAway head.now datagram.now) }
{
    if is_too_large(head, datagram) {
        return Err(Judgement::TooLarge);
    }
    match decode(head.profile, datagram) {
        Ok(packet) => Ok(packet),
        Err(place) => Err(Judgement::Refused { word: place.word }),
    }
}

// Whether a datagram has more words than the header allows.
fn is_too_large(head: &RecordHead, datagram: &[u8]) -> bool
    ensures { IsTrue result ↔ (4 * head.now.max_words < length datagram.now) }
{
    datagram.len() > 4 * head.max_words as usize
}
