// PGM files of a frame, for C.
ghost use Rattle.std.specs.Prelude.{◌≡◌};
ghost use Rattle.file_pgm.specs.Form.{pgm_length};
ghost use Rattle.file_pgm.specs.Reading.{ReadsPgm};
ghost use Rattle.file_pgm.specs.Size.{pgm_size};
ghost use Rattle.file_pgm.specs.Writing.{WritesPgm};

use file_pgm::PgmRead;

// How many bytes the file of a frame has, or 0 where the size is not allowed.
#[unsafe(no_mangle)]
pub extern "C" fn stacker_pgm_length(width: u64, height: u64) -> u64
    ensures { result ≡ pgm_length width height }
{
    file_pgm::pgm_length(width, height)
}

// Writes the file of a frame over all of the bytes.
#[unsafe(no_mangle)]
pub extern "C" fn stacker_write_pgm(width: u64, height: u64, frame: &[u16], bytes: &mut [u8]) -> u64
    ensures { WritesPgm width height frame.now bytes.old bytes.new result }
{
    file_pgm::write_pgm(width, height, frame, &mut *bytes)
}

// Reads a file into all of a frame.
#[unsafe(no_mangle)]
pub extern "C" fn stacker_read_pgm(bytes: &[u8], frame: &mut [u16]) -> PgmRead
    ensures { ReadsPgm bytes.now frame.old frame.new result }
{
    file_pgm::read_pgm(bytes, &mut *frame)
}

// The size of a file's frame.
#[unsafe(no_mangle)]
pub extern "C" fn stacker_pgm_size(bytes: &[u8]) -> PgmRead
    ensures { result ≡ pgm_size bytes.now }
{
    file_pgm::pgm_size(bytes)
}
