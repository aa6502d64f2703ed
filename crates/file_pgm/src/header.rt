// What stands before the samples of a PGM file: put at the start of a buffer, measured, and its numbers read.
pub mod digits;

ghost use Rattle.std.specs.Prelude.{◌≡◌, ◌≤◌};
ghost use Rattle.algebra.specs.Prelude.{length};
ghost use Rattle.printing.specs.Put.{Printed};
ghost use Rattle.file_pgm.specs.Header.Header.{pgm_header};

use crate::header::digits::digits;
use printing::Text;

// The bytes of the header: ten beside the digits.
pub fn header_length(width: usize, height: usize) -> usize
    requires { (width ≤ 9999) × (height ≤ 9999) }
    ensures { (result ≡ length (pgm_header width height)) × (result ≤ 18) }
{
    10 + digits(width) + digits(height)
}

// The header, in at most 50 bytes.
pub fn header_text(width: usize, height: usize) -> Text<64>
    ensures header { result ≡ pgm_header width height }
    ensures short { length result ≤ 64 }
{
    let mut text = Text::new();
    text.put_bytes(b"P5\n");
    text.put_number(width as u64);
    text.put_byte(b' ');
    text.put_number(height as u64);
    text.put_bytes(b"\n4095\n");
    text
}

// Puts the header at the start of a buffer, and answers where the samples start.
pub fn put_header(bytes: &mut [u8], width: usize, height: usize) -> usize
    requires { 64 ≤ length bytes.old }
    ensures { (Printed bytes.old 0 (pgm_header width height) bytes.new result) × (result ≤ 64) }
{
    let text = header_text(width, height);
    let header = text.as_bytes();
    bytes[..header.len()].copy_from_slice(header);
    header.len()
}
