ghost use Rattle.std.specs.Prelude.{◌≡◌, ◌≤◌, ◌+◌, ◌^◌, ◌++◌, length, flat_map, IfSome, codes};
ghost use Rattle.vrt_fields.specs.Field.{bit_of, fields_in_order};
ghost use Rattle.vrt_fields.specs.FieldSet.{FitsField, index_of};
ghost use Rattle.vrt_fields.specs.NumberText.{hexadecimal};
ghost use Rattle.cam_field.specs.Spelling.{word_of_cam};
ghost use Rattle.difi_texts.specs.Prologue.{indented};
ghost use Rattle.difi_texts.specs.CommandDetails.{word_line, spaced, identity, command_lines, front_lines};
ghost use Rattle.difi_texts.specs.CommandDetails.{line_if, set_line, set_lines, content, control_details, cancel_details};
ghost use Rattle.difi_texts.specs.CommandDetails.{response_line, response_lines, report_details, state_details, ack_details};

use crate::details::{push_common, push_field_line};
use crate::fields::all_fields;
use ack_codec::{Ack, AckReport, AckState, Responses};
use cam_field::{Cam, Ident};
use command_codec::{Cancel, Control};
use command_prologue::CommandPrologue;
use text_buffer::TextBuffer;
use vrt_fields::{Field, FieldSet};
use vrt_words::bits_of;

/// Puts behind the text what a command holds.
pub(crate) fn push_control(out: &mut TextBuffer, packet: &Control)
    requires { length out.old + 1400 ≤ 327680 }
    ensures text { out.new ≡ out.old ++ control_details packet.now }
    ensures length { length out.new ≤ length out.old + 1400 }
{
    push_front(out, &packet.front());
    push_word(out, b"fields ", packet.asked);
    push_content(out, &packet.fields);
}

/// Puts behind the text what a cancellation holds.
pub(crate) fn push_cancel(out: &mut TextBuffer, packet: &Cancel)
    requires { length out.old + 300 ≤ 327680 }
    ensures text { out.new ≡ out.old ++ cancel_details packet.now }
    ensures length { length out.new ≤ length out.old + 300 }
{
    push_front(out, &packet.front());
    push_word(out, b"fields ", packet.named);
}

/// Puts behind the text what an acknowledgement holds.
pub(crate) fn push_ack(out: &mut TextBuffer, packet: &Ack)
    requires { length out.old + 1400 ≤ 327680 }
    ensures text { out.new ≡ out.old ++ ack_details packet.now }
    ensures length { length out.new ≤ length out.old + 1400 }
{
    match packet {
        Ack::V(report) | Ack::X(report) => push_report(out, report),
        Ack::S(state) => push_state(out, state),
    }
}

// What an acknowledgement of the validation or of the execution holds.
fn push_report(out: &mut TextBuffer, report: &AckReport)
    requires { length out.old + 1000 ≤ 327680 }
    ensures text { out.new ≡ out.old ++ report_details report.now }
    ensures length { length out.new ≤ length out.old + 1000 }
{
    let front = CommandPrologue {
        prologue: report.prologue,
        cam: report.cam,
        message: report.message,
        controllee: report.controllee,
        controller: report.controller,
    };
    push_front(out, &front);
    push_responses(out, b"warnings ", &report.warnings);
    push_responses(out, b"errors ", &report.errors);
}

// What an answer to a query of the state holds.
fn push_state(out: &mut TextBuffer, state: &AckState)
    requires { length out.old + 1400 ≤ 327680 }
    ensures text { out.new ≡ out.old ++ state_details state.now }
    ensures length { length out.new ≤ length out.old + 1400 }
{
    let front = CommandPrologue {
        prologue: state.prologue,
        cam: state.cam,
        message: state.message,
        controllee: state.controllee,
        controller: state.controller,
    };
    push_front(out, &front);
    push_word(out, b"fields ", state.fields.cif0());
    push_set(out, &state.fields);
}

// What packets of the family have in front.
fn push_front(out: &mut TextBuffer, front: &CommandPrologue)
    requires { length out.old + 250 ≤ 327680 }
    ensures text { out.new ≡ out.old ++ front_lines front.now }
    ensures length { length out.new ≤ length out.old + 250 }
{
    push_common(out, &front.prologue);
    push_command(out, front);
}

// The lines of the mode word, the message identifier and the identities.
fn push_command(out: &mut TextBuffer, front: &CommandPrologue)
    requires { length out.old + 150 ≤ 327680 }
    ensures text { out.new ≡ out.old ++ command_lines front.now }
    ensures length { length out.new ≤ length out.old + 150 }
{
    push_mode(out, &front.cam);
    push_word(out, b"message ", front.message);
    push_identity(out, b"controllee", &front.controllee);
    push_identity(out, b"controller", &front.controller);
}

// The line of the mode word.
fn push_mode(out: &mut TextBuffer, cam: &Cam)
    requires { length out.old + 20 ≤ 327680 }
    ensures text { out.new ≡ out.old ++ word_line (codes "cam ") (word_of_cam cam.now) }
    ensures length { length out.new ≤ length out.old + 20 }
{
    push_word(out, b"cam ", word_of(cam));
}

// The mode word.
fn word_of(cam: &Cam) -> u32
    ensures { result ≡ word_of_cam cam.now }
{
    cam.write()
}

// The line of an identity.
fn push_identity(out: &mut TextBuffer, name: &[u8], ident: &Ident)
    requires name { length name.now ≤ 10 }
    requires room { length out.old + 50 ≤ 327680 }
    ensures text { out.new ≡ out.old ++ indented (name.now ++ identity ident.now) }
    ensures length { length out.new ≤ length out.old + 50 }
{
    out.push(b"  ");
    out.push(name);
    push_ident(out, ident);
    out.push(b"\n");
}

// The words of an identity, or that there is none.
fn push_ident(out: &mut TextBuffer, ident: &Ident)
    requires { length out.old + 36 ≤ 327680 }
    ensures text { out.new ≡ out.old ++ identity ident.now }
    ensures length { length out.new ≤ length out.old + 36 }
{
    match ident {
        Ident::None => out.push(b" none"),
        Ident::Word(word) => push_spaced(out, *word),
        Ident::Uuid(words) => push_uuid(out, words),
    }
}

// The four words of a UUID.
fn push_uuid(out: &mut TextBuffer, words: &[u32; 4])
    requires { length out.old + 36 ≤ 327680 }
    ensures text { out.new ≡ out.old ++ flat_map spaced words.now }
    ensures length { length out.new ≤ length out.old + 36 }
{
    for word in words {
        push_spaced(out, *word);
    }
}

// A word behind others.
fn push_spaced(out: &mut TextBuffer, word: u32)
    requires { length out.old + 9 ≤ 327680 }
    ensures text { out.new ≡ out.old ++ spaced word }
    ensures length { length out.new ≤ length out.old + 9 }
{
    out.push(b" ");
    out.push_hexadecimal(word);
}

// A line of a name and a word.
fn push_word(out: &mut TextBuffer, name: &[u8], word: u32)
    requires name { length name.now ≤ 9 }
    requires room { length out.old + 20 ≤ 327680 }
    ensures text { out.new ≡ out.old ++ word_line name.now word }
    ensures length { length out.new ≤ length out.old + 20 }
{
    out.push(b"  ");
    out.push(name);
    out.push_hexadecimal(word);
    out.push(b"\n");
}

// The values of a command, or that it is a query.
fn push_content(out: &mut TextBuffer, fields: &Option<FieldSet>)
    requires { length out.old + 1000 ≤ 327680 }
    ensures text { out.new ≡ out.old ++ content fields.now }
    ensures length { length out.new ≤ length out.old + 1000 }
{
    match fields {
        Some(set) => push_set(out, set),
        None => out.push(b"  query\n"),
    }
}

// A line for each field of a set.
fn push_set(out: &mut TextBuffer, set: &FieldSet)
    requires { length out.old + 1000 ≤ 327680 }
    ensures text { out.new ≡ out.old ++ set_lines set.now }
    ensures length { length out.new ≤ length out.old + 1000 }
{
    push_set_lines(out, set, &all_fields());
}

// The lines of some fields of a set.
fn push_set_lines(out: &mut TextBuffer, set: &FieldSet, fields: &[Field])
    requires few { length fields.now ≤ 12 }
    requires room { length out.old + 1000 ≤ 327680 }
    ensures text { out.new ≡ out.old ++ flat_map (set_line set.now) fields.now }
    ensures length { length out.new ≤ length out.old + 1000 }
{
    for field in fields {
        push_value(out, *field, set.get(*field));
    }
}

// The line of a field, where it has a value.
fn push_value(out: &mut TextBuffer, field: Field, value: Option<u64>)
    requires fits { IfSome value (FitsField field) }
    requires room { length out.old + 83 ≤ 327680 }
    ensures text { out.new ≡ out.old ++ line_if value field }
    ensures length { length out.new ≤ length out.old + 83 }
{
    if let Some(value) = value {
        push_field_line(out, field, value);
    }
}

// The fields that met a warning or an error, where there are such.
fn push_responses(out: &mut TextBuffer, name: &[u8], responses: &Option<Responses>)
    requires name { length name.now ≤ 9 }
    requires room { length out.old + 260 ≤ 327680 }
    ensures text { out.new ≡ out.old ++ response_lines name.now responses.now }
    ensures length { length out.new ≤ length out.old + 260 }
{
    if let Some(responses) = responses {
        push_word(out, name, responses.cif0);
        push_listed(out, responses);
    }
}

// The lines of the fields that are listed.
fn push_listed(out: &mut TextBuffer, responses: &Responses)
    requires { length out.old + 240 ≤ 327680 }
    ensures text { out.new ≡ out.old ++ flat_map (response_line responses.now) fields_in_order }
    ensures length { length out.new ≤ length out.old + 240 }
{
    let fields = all_fields();
    for index in 0..12 {
        push_response(out, responses, index, fields[index]);
    }
}

// The line of the field with this number, where it is listed.
fn push_response(out: &mut TextBuffer, responses: &Responses, index: usize, field: Field)
    requires field { index ≡ index_of field }
    requires room { length out.old + 20 ≤ 327680 }
    ensures text { out.new ≡ out.old ++ response_line responses.now field }
    ensures length { length out.new ≤ length out.old + 20 }
{
    if bits_of(responses.cif0, field.bit(), 1) == 1 {
        push_pair(out, value_of_bit(field), responses.words[index]);
    }
}

// The value that the bit of a field has in CIF0.
fn value_of_bit(field: Field) -> u32
    ensures { result ≡ 2 ^ bit_of field }
{
    1 << field.bit()
}

// A line of two words.
fn push_pair(out: &mut TextBuffer, first: u32, second: u32)
    requires { length out.old + 20 ≤ 327680 }
    ensures text { out.new ≡ out.old ++ indented (hexadecimal first ++ spaced second) }
    ensures length { length out.new ≤ length out.old + 20 }
{
    out.push(b"  ");
    out.push_hexadecimal(first);
    push_spaced(out, second);
    out.push(b"\n");
}
