// The words of each number.
ghost use Rattle.std.specs.Prelude.{◌≡◌};
ghost use Rattle.c_words.specs.Words.{words_of};

// By the numbers, from 0 on.
const WORDS: [&str; 28] = [
    "accepted",
    "width or height not a multiple of 64 from 64 to 4096",
    "count of frames 0 or above 8",
    "reference, or index of the frame to be read, not below the count of frames",
    "samples not of length count * row_length * height",
    "vectors not of length (count - 1) * 2 * (width / side + 1) * (height / side + 1), or for one frame without (count - 1)",
    "output or frame not of length width * height, band not of rows * width, or residuals not half as many as the vectors' parts",
    "work area not of length 2 * width * height, or for a band 4 * side * width",
    "shot or read negative or not finite, or ISO outside 25..409600",
    "shot above 64 or read above 4096 after ISO, or a file's levels above 65536 or 4194304",
    "strength above 1024",
    "a sample above 4095",
    "a part of a vector outside -172..172",
    "a file whose first line differs",
    "a file with a malformed line of values",
    "a file that is short, or goes on after its last row",
    "bytes not of the length that stacker_pgm_length answers",
    "not a PGM file as stacker_write_pgm writes it",
    "a black level above 255",
    "not a little-endian TIFF file, or a part of it lies past its end",
    "a DNG file in which a needed tag is absent or a listed one stands twice",
    "a DNG file with a type, count or value that is not read, or of another size than the burst",
    "side of the tiles neither 16 nor 32, or not 16 where a range of noise is asked for",
    "row length not from width to width + 256",
    "spatial strength above 256, or not 0 where a range of noise is asked for",
    "spatial strength not 0 with tiles of side 32",
    "lower shot or read above the upper one after ISO",
    "a band of rows off the grid of tiles or outside the frame, or a frame that is none of the others",
];

// The words of any number.
pub fn words_of(number: u64) -> &'static str
    ensures { result.now ≡ words_of number }
{
    match WORDS.get(number as usize) {
        Some(words) => words,
        None => "no refusal of this version",
    }
}
