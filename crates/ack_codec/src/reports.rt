ghost use Rattle.std.specs.Prelude.{◌≡◌, ◌+◌, ◌-◌, ◌*◌, ◌<◌, ◌≤◌, ◌∷◌, ◌++◌, false, length, drop, IfOk, IfErr};
ghost use Rattle.vrt_words.specs.Words.{words_of};
ghost use Rattle.vrt_fields.specs.FieldSet.{number_in_mask};
ghost use Rattle.cam_field.specs.Spelling.{bit_of};
ghost use Rattle.command_prologue.specs.CommandPrologue.{IsAnswerSize, command_words};
ghost use Rattle.ack_codec.specs.Responses.{AreResponses, listed_words};
ghost use Rattle.ack_codec.specs.Steps.{told_of, left_of, IsAckFront, IsBegunOne, IsBegunTwo, IsBegunReport, IsCutAt, IsReadBehind, AreReadAt};

use crate::ack::{Ack, AckReport};
use crate::listing::read_responses;
use crate::mask::listing_at;
use crate::responses::Responses;
use command_prologue::CommandPrologue;
use vrt_fields::mask_number;
use vrt_words::{Place, check_size};

/// The warnings and errors that are told behind this front.
pub(crate) fn read_report(front: &CommandPrologue, bytes: &[u8]) -> Result<Ack, Place>
    requires front { IsAckFront front.now }
    requires told { front.now.cam.s ≡ false }
    requires there { command_words front.now ≤ length (words_of bytes.now) }
    ensures found { IfOk result (IsReadBehind front.now bytes.now) }
    ensures refused { IfErr result (λ place.
        IsCutAt (IsBegunReport front.now.cam.warned front.now.cam.erred (left_of front.now))
        (command_words front.now) front.now.prologue.header.size bytes.now place.word) }
{
    let at = front.words();
    let cam = &front.cam;
    match responses_at(cam.warned, cam.erred, bytes, at, front.prologue.header.size) {
        Ok((warnings, errors)) => Ok(report_of(front, warnings, errors)),
        Err(place) => Err(place),
    }
}

// A report of the kind that the mode word tells.
fn report_of(front: &CommandPrologue, warnings: Option<Responses>, errors: Option<Responses>) -> Ack
    ensures { result ≡ told_of front.now warnings errors }
{
    let report = AckReport {
        prologue: front.prologue,
        cam: front.cam,
        message: front.message,
        controllee: front.controllee,
        controller: front.controller,
        warnings,
        errors,
    };
    if front.cam.v {
        Ack::V(report)
    } else {
        Ack::X(report)
    }
}

// The warnings and the errors that are announced, in the words from `at` on, where they end a
// datagram of this size.
fn responses_at(
    warned: bool,
    erred: bool,
    bytes: &[u8],
    at: usize,
    size: u16,
) -> Result<(Option<Responses>, Option<Responses>), Place>
    requires there { at ≤ length (words_of bytes.now) }
    requires inside { at ≤ size }
    requires allowed { IsAnswerSize false (bit_of warned + bit_of erred) (size - at) }
    ensures found { IfOk result (λ told. AreReadAt warned erred at size bytes.now told.0 told.1) }
    ensures refused { IfErr result (λ place.
        IsCutAt (IsBegunReport warned erred (size - at)) at size bytes.now place.word) }
{
    match (warned, erred) {
        (true, true) => match both_lists(bytes, at, size) {
            Ok((warnings, errors)) => Ok((Some(warnings), Some(errors))),
            Err(place) => Err(place),
        },
        (true, false) => match one_list(bytes, at, size) {
            Ok(warnings) => Ok((Some(warnings), None)),
            Err(place) => Err(place),
        },
        (false, true) => match one_list(bytes, at, size) {
            Ok(errors) => Ok((None, Some(errors))),
            Err(place) => Err(place),
        },
        (false, false) => match check_size(bytes, size) {
            Ok(()) => Ok((None, None)),
            Err(place) => Err(place),
        },
    }
}

// A mask and its responses in the words from `at` on, where they end a datagram of this size.
fn one_list(bytes: &[u8], at: usize, size: u16) -> Result<Responses, Place>
    requires there { at ≤ length (words_of bytes.now) }
    requires left { at < size }
    ensures found { IfOk result (λ responses. AreResponses responses
        × (drop at (words_of bytes.now) ≡ responses.cif0 ∷ listed_words responses)
        × (length bytes.now ≡ 4 * size)) }
    ensures refused { IfErr result (λ place.
        IsCutAt (IsBegunOne number_in_mask (size - at)) at size bytes.now place.word) }
{
    let listed = usize::from(size) - at - 1;
    let Some(mask) = listing_at(bytes, at, listed, listed) else {
        return Err(Place { word: at as u32 });
    };
    match check_size(bytes, size) {
        Ok(()) => Ok(read_responses(mask, bytes, at + 1)),
        Err(place) => Err(place),
    }
}

// Two masks and their responses in the words from `at` on, where they end a datagram of this size.
// The first mask leaves words that a second one can announce.
fn both_lists(bytes: &[u8], at: usize, size: u16) -> Result<(Responses, Responses), Place>
    requires there { at ≤ length (words_of bytes.now) }
    requires left { at + 2 ≤ size }
    requires most { size ≤ at + 26 }
    ensures found { IfOk result (λ told. AreResponses told.0 × AreResponses told.1
        × (drop at (words_of bytes.now)
        ≡ told.0.cif0 ∷ told.1.cif0 ∷ (listed_words told.0 ++ listed_words told.1))
        × (length bytes.now ≡ 4 * size)) }
    ensures refused { IfErr result (λ place.
        IsCutAt (IsBegunTwo (size - at)) at size bytes.now place.word) }
{
    let listed = usize::from(size) - at - 2;
    let Some(first) = listing_at(bytes, at, listed.saturating_sub(12), listed) else {
        return Err(Place { word: at as u32 });
    };
    let rest = listed - mask_number(first);
    let Some(second) = listing_at(bytes, at + 1, rest, rest) else {
        return Err(Place {
            word: at as u32 + 1,
        });
    };
    match check_size(bytes, size) {
        Ok(()) => {
            let middle = at + 2 + mask_number(first);
            Ok((
                read_responses(first, bytes, at + 2),
                read_responses(second, bytes, middle),
            ))
        }
        Err(place) => Err(place),
    }
}
