ghost use Rattle.std.specs.Prelude.{◌≡◌, ◌+◌, ◌*◌, ◌≤◌, ◌++◌, ◌∷◌, ℕ, List, length, take, drop};
ghost use Rattle.vrt_words.specs.Words.{words_of, AreBytes, AreWords};
ghost use Rattle.vrt_words.specs.Begins.{IsDatagram};
ghost use Rattle.vrt_fields.specs.FieldSet.{mask_of, words_of_set};
ghost use Rattle.ack_codec.specs.Ack.{front_of, mask_words, response_words, report_words, IsAck};
ghost use Rattle.ack_codec.specs.Steps.{content_words};

use crate::ack::Ack;
use crate::listing::put_responses;
use crate::responses::Responses;
use cam_field::Role;
use command_prologue::{CommandPrologue, write_command_prologue};
use vrt_fields::FieldSet;
use vrt_header::Profile;
use vrt_words::put_words;

/// Writes an acknowledgement at the front of `into`, and answers its words. All other bytes stay.
///
/// The acknowledgement is one that words can spell under this profile, and there is room for it.
/// Reading it again gives the acknowledgement, and writing what was read gives the same bytes.
pub fn encode_ack(profile: Profile, packet: &Ack, into: &mut [u8]) -> usize
    requires spelled { (words : List ℕ) × AreWords words × IsAck profile packet.now words }
    requires room { 4 * (front_of packet.now).prologue.header.size ≤ length into.old }
    ensures size { result ≡ (front_of packet.now).prologue.header.size }
    ensures packet { IsDatagram (IsAck profile) packet.now (take (4 * result) into.new) }
    ensures again { (bytes : List ℕ) → AreBytes bytes → IsDatagram (IsAck profile) packet.now bytes
        → take (4 * result) into.new ≡ bytes }
    ensures behind { drop (4 * result) into.new ≡ drop (4 * result) into.old }
{
    let start = write_command_prologue(profile, Role::Ack, &front(packet), into);
    put_content(into, start, packet)
}

// What stands in front of the content.
fn front(packet: &Ack) -> CommandPrologue
    ensures { result ≡ front_of packet.now }
{
    match packet {
        Ack::V(report) | Ack::X(report) => CommandPrologue {
            prologue: report.prologue,
            cam: report.cam,
            message: report.message,
            controllee: report.controllee,
            controller: report.controller,
        },
        Ack::S(state) => CommandPrologue {
            prologue: state.prologue,
            cam: state.cam,
            message: state.message,
            controllee: state.controllee,
            controller: state.controller,
        },
    }
}

// Writes the content from the word `at` on, and tells where it ends.
fn put_content(into: &mut [u8], at: usize, packet: &Ack) -> usize
    requires { 4 * (at + length (content_words packet.now)) ≤ length into.old }
    ensures end { result ≡ at + length (content_words packet.now) }
    ensures words { words_of into.new
        ≡ take at (words_of into.old) ++ (content_words packet.now
        ++ drop result (words_of into.old)) }
    ensures behind { drop (4 * result) into.new ≡ drop (4 * result) into.old }
{
    match packet {
        Ack::V(report) | Ack::X(report) => put_report(into, at, &report.warnings, &report.errors),
        Ack::S(state) => put_fields(into, at, &state.fields),
    }
}

// Writes both masks and then the responses, and tells where they end.
fn put_report(
    into: &mut [u8],
    at: usize,
    warnings: &Option<Responses>,
    errors: &Option<Responses>,
) -> usize
    requires { 4 * (at + length (report_words warnings.now errors.now)) ≤ length into.old }
    ensures end { result ≡ at + length (report_words warnings.now errors.now) }
    ensures words { words_of into.new
        ≡ take at (words_of into.old) ++ (report_words warnings.now errors.now
        ++ drop result (words_of into.old)) }
    ensures behind { drop (4 * result) into.new ≡ drop (4 * result) into.old }
{
    let middle = put_mask(into, at, warnings);
    let masks = put_mask(into, middle, errors);
    let warned = put_listed(into, masks, warnings);
    put_listed(into, warned, errors)
}

// Writes the mask of responses, where they are there, and tells where it ends.
fn put_mask(into: &mut [u8], at: usize, responses: &Option<Responses>) -> usize
    requires { 4 * (at + length (mask_words responses.now)) ≤ length into.old }
    ensures end { result ≡ at + length (mask_words responses.now) }
    ensures words { words_of into.new
        ≡ take at (words_of into.old) ++ (mask_words responses.now
        ++ drop result (words_of into.old)) }
    ensures behind { drop (4 * result) into.new ≡ drop (4 * result) into.old }
{
    match responses {
        None => at,
        Some(responses) => {
            put_words(into, at, &[responses.cif0]);
            at + 1
        }
    }
}

// Writes the responses that are listed, where they are there, and tells where they end.
fn put_listed(into: &mut [u8], at: usize, responses: &Option<Responses>) -> usize
    requires { 4 * (at + length (response_words responses.now)) ≤ length into.old }
    ensures end { result ≡ at + length (response_words responses.now) }
    ensures words { words_of into.new
        ≡ take at (words_of into.old) ++ (response_words responses.now
        ++ drop result (words_of into.old)) }
    ensures behind { drop (4 * result) into.new ≡ drop (4 * result) into.old }
{
    match responses {
        None => at,
        Some(responses) => put_responses(into, at, responses),
    }
}

// Writes CIF0 and its fields, and tells where they end.
fn put_fields(into: &mut [u8], at: usize, fields: &FieldSet) -> usize
    requires { 4 * (at + length (mask_of fields.now ∷ words_of_set fields.now)) ≤ length into.old }
    ensures end { result ≡ at + length (mask_of fields.now ∷ words_of_set fields.now) }
    ensures words { words_of into.new
        ≡ take at (words_of into.old) ++ (mask_of fields.now ∷ words_of_set fields.now
        ++ drop result (words_of into.old)) }
    ensures behind { drop (4 * result) into.new ≡ drop (4 * result) into.old }
{
    put_words(into, at, &[fields.cif0()]);
    at + 1 + fields.write(into, at + 1)
}
