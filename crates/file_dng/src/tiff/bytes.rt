// Numbers in the bytes of a file.
ghost use Rattle.std.specs.Prelude.{◌≡◌, ◌<◌};
ghost use Rattle.algebra.specs.Prelude.{get_or};
ghost use Rattle.file_dng.specs.Tiff.Bytes.{short, long, eight, number};

// A byte; 0 past the end.
pub fn byte_at(file: &[u8], at: usize) -> usize
    ensures { (result ≡ get_or file.now at 0) × (result < 256) }
{
    if at < file.len() {
        return file[at] as usize;
    }
    0
}

// A SHORT, the low byte first.
pub fn short_at(file: &[u8], at: usize) -> usize
    requires { at < 9223372036854775808 }
    ensures { (result ≡ short file.now at) × (result < 65536) }
{
    let low = byte_at(file, at);
    let high = byte_at(file, at + 1);
    low + 256 * high
}

// A LONG.
pub fn long_at(file: &[u8], at: usize) -> usize
    requires { at < 4611686018427387904 }
    ensures { (result ≡ long file.now at) × (result < 4294967296) }
{
    short_at(file, at) + 65536 * short_at(file, at + 2)
}

// The pattern of a DOUBLE.
pub fn eight_at(file: &[u8], at: usize) -> u64
    requires { at < 2305843009213693952 }
    ensures { result ≡ eight file.now at }
{
    (long_at(file, at) + 4294967296 * long_at(file, at + 4)) as u64
}

// The number of `size` bytes; 0 for a size that no number of a tag has.
pub fn number_at(file: &[u8], at: usize, size: usize) -> usize
    requires { at < 4611686018427387904 }
    ensures { (result ≡ number size file.now at) × (result < 4294967296) }
{
    match size {
        1 => byte_at(file, at),
        2 => short_at(file, at),
        4 => long_at(file, at),
        _ => 0,
    }
}
