// Burst files, for C.
ghost use Rattle.std.specs.Prelude.{◌≡◌};
ghost use Rattle.file_burst.specs.Reading.{FileRead};
ghost use Rattle.file_burst.specs.Size.{file_size};

use file_burst::FileAnswer;

// Reads a burst file into the lent samples.
#[unsafe(no_mangle)]
pub extern "C" fn stacker_read_file(file: &[u8], samples: &mut [u16]) -> FileAnswer
    ensures { FileRead file.now samples.old result samples.new }
{
    file_burst::read_file(file, &mut *samples)
}

// What the first two lines of a burst file say.
#[unsafe(no_mangle)]
pub extern "C" fn stacker_file_size(file: &[u8]) -> FileAnswer
    ensures { result ≡ file_size file.now }
{
    file_burst::file_size(file)
}
