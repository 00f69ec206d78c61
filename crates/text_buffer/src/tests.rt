use crate::TextBuffer;
use vrt_fields::Field;
use vrt_words::NoMemory;

#[test]
fn texts_stand_one_behind_another(rt: HostRuntime) -> Result<(), NoMemory> {
    let alloc = rt.alloc();
    let mut out = TextBuffer::open(alloc)?;
    out.push(b"a ");
    out.push_decimal(120);
    out.push(b" ");
    out.push_twelve_digits(34);
    out.push(b" ");
    out.push_hexadecimal(0xAB);
    out.push(b" ");
    out.push_last_word(1);
    let text = b"a 120 000000000034 000000AB 00000001\n";
    assert_eq!(rt; out.as_slice(), text.as_slice());
    out.clear();
    assert_eq!(rt; out.as_slice(), b"".as_slice());
    Ok(())
}

#[test]
fn a_field_has_its_text(rt: HostRuntime) -> Result<(), NoMemory> {
    let alloc = rt.alloc();
    let mut out = TextBuffer::open(alloc)?;
    out.push_field(Field::SampleRate, 1 << 20);
    let text = b"sample rate 1 Hz + 0/1048576";
    assert_eq!(rt; out.as_slice(), text.as_slice());
    Ok(())
}

#[test]
fn a_buffer_is_full_from_65536_bytes_on(rt: HostRuntime) -> Result<(), NoMemory> {
    let alloc = rt.alloc();
    let mut out = TextBuffer::open(alloc)?;
    out.push(&[7; 65_535]);
    assert!(rt; !out.is_full());
    out.push(b"x");
    assert!(rt; out.is_full());
    Ok(())
}
