//! The texts of shows and dumps.
ghost use Rattle.std.specs.Prelude.{◌≡◌, ◌+◌, ◌++◌, ◌%◌, ◌<◌, ◌≤◌, ◌==◌, ◌||◌, if◌then◌else◌, [], OnOk, codes, false};
ghost use Rattle.std.specs.Fmt.{digit_glyph};
ghost use Rattle.std.specs.Io.KnownBytes.{Appends};
ghost use Rattle.tag_pool.specs.Texts.{field, shown_text, dump_text, hex_digits};

use crate::shown::Shown;
use itoa::Buffer;
use std::io::{Result, Write};

/// Bytes in a line of a dump.
const LINE_BYTES: usize = 16;

/// Writes five lines: `depth=`, `busy=`, `cleared=`, `bits_per_word=` and `map_nr=`, each followed by its number. It
/// fails only if the writer does, which may then have taken a part of the text.
pub fn write_show<W: Write>(shown: &Shown, writer: &mut W) -> Result<()>
    ensures { OnOk result (Appends (W.contents writer.old) (W.contents writer.new) (shown_text shown.now)) }
{
    write_field(writer, b"depth=", shown.depth)?;
    write_field(writer, b"\nbusy=", shown.busy)?;
    write_field(writer, b"\ncleared=", shown.cleared)?;
    write_field(writer, b"\nbits_per_word=", shown.bits_per_word)?;
    write_field(writer, b"\nmap_nr=", shown.map_nr)?;
    writer.write_all(b"\n")?;
    Ok(())
}

fn write_field<W: Write>(writer: &mut W, words: &[u8], number: u32) -> Result<()>
    ensures { OnOk result (Appends (W.contents writer.old) (W.contents writer.new) (field words.now number)) }
{
    let mut buffer = Buffer::new();
    writer.write_all(words)?;
    writer.write_all(buffer.format(number).as_bytes())
}

/// Writes the bytes in hexadecimal, sixteen in a line after the offset of the first, as `sbitmap_bitmap_show`
/// (lib/sbitmap.c) does. It writes one digit at a time, so pass it a buffered writer. It fails only if the writer does,
/// which may then have taken a part of the text.
pub fn write_dump<W: Write>(bytes: &[u8], writer: &mut W) -> Result<()>
    ensures { OnOk result (Appends (W.contents writer.old) (W.contents writer.new) (dump_text bytes.now)) }
{
    for offset in 0..bytes.len() {
        write_head(writer, offset)?;
        write_gap(writer, offset)?;
        write_hex(writer, u64::from(bytes[offset]), 2)?;
        write_end(writer, bytes.len(), offset)?;
    }
    Ok(())
}

fn write_head<W: Write>(writer: &mut W, offset: usize) -> Result<()>
    ensures { let head = (if offset % 16 == 0 then hex_digits 8 offset ++ codes ":" else []) in
        OnOk result (Appends (W.contents writer.old) (W.contents writer.new) head) }
{
    if offset % LINE_BYTES != 0 {
        return Ok(());
    }
    write_hex(writer, offset as u64, 8)?;
    writer.write_all(b":")?;
    Ok(())
}

fn write_gap<W: Write>(writer: &mut W, offset: usize) -> Result<()>
    ensures { let gap = (if offset % 2 == 0 then codes " " else []) in
        OnOk result (Appends (W.contents writer.old) (W.contents writer.new) gap) }
{
    if offset % 2 != 0 {
        return Ok(());
    }
    writer.write_all(b" ")
}

fn write_end<W: Write>(writer: &mut W, count: usize, offset: usize) -> Result<()>
    requires { offset < count }
    ensures { let end = (if offset % 16 == 15 || offset + 1 == count then codes "\n" else []) in
        OnOk result (Appends (W.contents writer.old) (W.contents writer.new) end) }
{
    if offset % LINE_BYTES == LINE_BYTES - 1 || offset + 1 == count {
        return writer.write_all(b"\n");
    }
    Ok(())
}

/// Writes the last `width` hexadecimal digits of a number, the highest first.
fn write_hex<W: Write>(writer: &mut W, number: u64, width: u32) -> Result<()>
    requires { width ≤ 8 }
    ensures { OnOk result (Appends (W.contents writer.old) (W.contents writer.new) (hex_digits width number)) }
{
    for done in 0..width {
        let digit = (number >> (4 * (width - done - 1))) % 16;
        writer.write_all(&[hex_digit(digit)])?;
    }
    Ok(())
}

fn hex_digit(digit: u64) -> u8
    requires { digit < 16 }
    ensures { result ≡ digit_glyph false digit }
{
    if digit < 10 {
        b'0' + digit as u8
    } else {
        b'a' + (digit - 10) as u8
    }
}
