// Refusals in words, and the version, for C.
ghost use Rattle.std.specs.Prelude.{◌≡◌};
ghost use Rattle.c_words.specs.Words.{words_of, TextPut, version_number};

// The words of a refusal's number into a lent buffer, and how many bytes they are.
#[unsafe(no_mangle)]
pub extern "C" fn stacker_refusal_words(number: u64, text: &mut [u8]) -> u64
    ensures { TextPut (words_of number) text.old text.new result }
{
    c_words::refusal_words(number, &mut *text)
}

// The version of the calls.
#[unsafe(no_mangle)]
pub extern "C" fn stacker_version() -> u64
    ensures { result ≡ version_number }
{
    c_words::version()
}
