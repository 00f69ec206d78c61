ghost use Rattle.std.specs.Prelude.{◌≡◌, ◌≤◌, ◌<◌, ◌+◌, ◌*◌, ◌^◌, ◌++◌, length, flat_map, codes};
ghost use Rattle.std.specs.Fmt.{decimal};
ghost use Rattle.vrt_fields.specs.Field.{width_of};
ghost use Rattle.vrt_fields.specs.NumberText.{hexadecimal};
ghost use Rattle.vrt_fields.specs.Text.{field_text};
ghost use Rattle.difi_context.specs.Context.{field_of};
ghost use Rattle.vrt_words.specs.Words.{words_of, bits};
ghost use Rattle.difi_data.specs.Data.{packet_of};
ghost use Rattle.difi_packet.specs.Packet.{value_of};
ghost use Rattle.difi_texts.specs.Prologue.{indented, time, common};
ghost use Rattle.difi_texts.specs.Details.{changes, field_line, data_details, context_details, version, version_details, details, under};

use crate::command_details::{push_ack, push_cancel, push_control};
use crate::fields::all_fields;
use crate::lines::Listing;
use difi_context::ContextRec;
use difi_data::DataRec;
use difi_packet::Packet;
use difi_version::VersionRec;
use text_buffer::TextBuffer;
use vrt_fields::Field;
use vrt_header::Prologue;
use vrt_words::bits_of;

/// Puts behind the text what a listing tells of an accepted packet under the line of its frame.
pub fn push_under(out: &mut TextBuffer, listing: Listing, packet: &Packet<'_>)
    requires { length out.old + 1400 ≤ 327680 }
    ensures text { out.new ≡ out.old ++ under listing (value_of packet.now) }
    ensures length { length out.new ≤ length out.old + 1400 }
{
    match listing {
        Listing::Check => {}
        Listing::Show => push_details(out, packet),
    }
}

// All that a packet holds.
fn push_details(out: &mut TextBuffer, packet: &Packet<'_>)
    requires { length out.old + 1400 ≤ 327680 }
    ensures text { out.new ≡ out.old ++ details (value_of packet.now) }
    ensures length { length out.new ≤ length out.old + 1400 }
{
    match packet {
        Packet::Data(rec) => push_data(out, rec),
        Packet::Context(rec) => push_context(out, rec),
        Packet::Version(rec) => push_version(out, rec),
        Packet::Control(packet) => push_control(out, packet),
        Packet::Cancel(packet) => push_cancel(out, packet),
        Packet::Ack(packet) => push_ack(out, packet),
    }
}

fn push_data(out: &mut TextBuffer, rec: &DataRec<'_>)
    requires { length out.old + 200 ≤ 327680 }
    ensures text { out.new ≡ out.old ++ data_details (packet_of rec.now) }
    ensures length { length out.new ≤ length out.old + 200 }
{
    push_common(out, &rec.prologue);
    push_number(out, b"pad ", u64::from(rec.prologue.pad));
    push_number(out, b"payload words ", (rec.payload.len() / 4) as u64);
}

fn push_context(out: &mut TextBuffer, rec: &ContextRec)
    requires { length out.old + 1400 ≤ 327680 }
    ensures text { out.new ≡ out.old ++ context_details rec.now }
    ensures length { length out.new ≤ length out.old + 1400 }
{
    push_common(out, &rec.prologue);
    push_changes(out, rec.changed);
    push_fields(out, rec, &all_fields());
}

pub(crate) fn push_version(out: &mut TextBuffer, rec: &VersionRec)
    requires { length out.old + 400 ≤ 327680 }
    ensures text { out.new ≡ out.old ++ version_details rec.now }
    ensures length { length out.new ≤ length out.old + 400 }
{
    push_common(out, &rec.prologue);
    push_changes(out, rec.changed);
    push_spec(out, rec.spec);
    push_version_word(out, rec.version);
}

/// Puts behind the text the lines of the prologue: its stamp and its count.
pub(crate) fn push_common(out: &mut TextBuffer, prologue: &Prologue)
    requires { length out.old + 100 ≤ 327680 }
    ensures text { out.new ≡ out.old ++ common prologue.now }
    ensures length { length out.new ≤ length out.old + 100 }
{
    push_time(out, prologue);
    push_number(out, b"count ", u64::from(prologue.header.count));
}

// The line of the stamp.
fn push_time(out: &mut TextBuffer, prologue: &Prologue)
    requires { length out.old + 60 ≤ 327680 }
    ensures text { out.new ≡ out.old ++ indented (time prologue.now.stamp) }
    ensures length { length out.new ≤ length out.old + 60 }
{
    match &prologue.stamp {
        Some(stamp) => {
            out.push(b"  time ");
            out.push_decimal(u64::from(stamp.seconds()));
            out.push(b" s ");
            out.push_twelve_digits(stamp.picos());
            out.push(b" ps\n");
        }
        None => out.push(b"  time none\n"),
    }
}

// A line of a name and a number.
fn push_number(out: &mut TextBuffer, name: &[u8], number: u64)
    requires name { length name.now ≤ 16 }
    requires room { length out.old + 40 ≤ 327680 }
    ensures text { out.new ≡ out.old ++ indented (name.now ++ decimal number) }
    ensures length { length out.new ≤ length out.old + 40 }
{
    out.push(b"  ");
    out.push(name);
    out.push_decimal(number);
    out.push(b"\n");
}

// The line of the change indicator.
fn push_changes(out: &mut TextBuffer, changed: bool)
    requires { length out.old + 20 ≤ 327680 }
    ensures text { out.new ≡ out.old ++ indented (changes changed) }
    ensures length { length out.new ≤ length out.old + 20 }
{
    if changed {
        out.push(b"  changed yes\n");
    } else {
        out.push(b"  changed no\n");
    }
}

// The lines of some fields of a context.
fn push_fields(out: &mut TextBuffer, rec: &ContextRec, fields: &[Field])
    requires few { length fields.now ≤ 12 }
    requires room { length out.old + 1000 ≤ 327680 }
    ensures text { out.new ≡ out.old ++ flat_map (field_line rec.now) fields.now }
    ensures length { length out.new ≤ length out.old + 1000 }
{
    for field in fields {
        push_field(out, &rec.fields, *field, rec.field(*field));
    }
}

// The line of a field with this value among the words of all.
fn push_field(out: &mut TextBuffer, words: &[u32], field: Field, value: u64)
    requires value { value ≡ field_of words.now field }
    requires room { length out.old + 83 ≤ 327680 }
    ensures text { out.new ≡ out.old ++ indented (field_text field value) }
    ensures length { length out.new ≤ length out.old + 83 }
{
    push_field_line(out, field, value);
}

/// Puts the line of a field with this value behind the text.
pub(crate) fn push_field_line(out: &mut TextBuffer, field: Field, value: u64)
    requires room { length out.old + 83 ≤ 327680 }
    requires fits { width_of field ≡ 1 → value < 2 ^ 32 }
    ensures text { out.new ≡ out.old ++ indented (field_text field value) }
    ensures length { length out.new ≤ length out.old + 83 }
{
    out.push(b"  ");
    out.push_field(field, value);
    out.push(b"\n");
}

// The line of the version of the specification.
fn push_spec(out: &mut TextBuffer, spec: u32)
    requires { length out.old + 20 ≤ 327680 }
    ensures text { out.new ≡ out.old ++ indented (codes "spec " ++ hexadecimal spec) }
    ensures length { length out.new ≤ length out.old + 20 }
{
    out.push(b"  spec ");
    out.push_hexadecimal(spec);
    out.push(b"\n");
}

// The line of the version word.
fn push_version_word(out: &mut TextBuffer, word: u32)
    requires { length out.old + 140 ≤ 327680 }
    ensures text { out.new ≡ out.old ++ indented (version word) }
    ensures length { length out.new ≤ length out.old + 140 }
{
    push_part(out, b"  year ", bits_of(word, 25, 7));
    push_part(out, b" day ", bits_of(word, 16, 9));
    push_part(out, b" revision ", bits_of(word, 10, 6));
    push_part(out, b" type ", bits_of(word, 6, 4));
    push_part(out, b" icd ", bits_of(word, 0, 6));
    out.push(b"\n");
}

// A name and a number.
fn push_part(out: &mut TextBuffer, name: &[u8], number: u32)
    requires { length out.old + length name.now + 20 ≤ 327680 }
    ensures text { out.new ≡ out.old ++ (name.now ++ decimal number) }
    ensures length { length out.new ≤ length out.old + length name.now + 20 }
{
    out.push(name);
    out.push_decimal(u64::from(number));
}
