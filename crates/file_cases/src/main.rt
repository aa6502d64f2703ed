// Each argument names a burst file: its name, the file check's number and that of reading it into 8192 samples, a line for each.
#![tactic(auto)]

ghost use Rattle.std.specs.Prelude.{◌≡◌, ◌≤◌, length};
ghost use Rattle.file_burst.specs.Lines.Part.{number_of};
ghost use Rattle.file_burst.specs.Reading.{reading_into};

use file_input::Reason;
use std::env::{Env, FillError};
use std::io::Read;
use std::rt::Files;
use std::{fs, io, str};

// The number with which reading the file into the samples of two 64 by 64 frames ends.
fn reading_number(file: &[u8]) -> u64
    ensures { result ≡ number_of (reading_into 8192 file.now) }
{
    let mut samples = [0u16; 8192];
    let answer = file_burst::read_file(file, &mut samples);
    answer.refusal
}

// One line: the name, what the file check answers, and what reading answers.
fn print_case(rt: &impl Print, name: &str, file: &[u8]) -> io::Result<()> {
    let check = file_burst::check_file(file);
    let reading = reading_number(file);
    println!(rt; "{name} {check} {reading}")
}

// Reads until the buffer is full, the input ends or a read fails, and returns how many bytes lie at the start of the buffer.
// Unlike with `file_input::read_all`, what came before a read that fails counts.
fn read_full<R: Read>(reader: &mut R, buffer: &mut [u8]) -> usize
    ensures { result ≤ length buffer.new }
{
    let mut count = 0;
    while count < buffer.len() {
        match reader.read(&mut buffer[count..]) {
            Err(_) | Ok(0) => break,
            Ok(more) => count += more,
        }
    }
    count
}

// The file of that name, of up to 65536 bytes.
fn try_file(rt: &(impl Files + Print + Eprint), name: &str) -> io::Result<()> {
    match fs::open(rt, name) {
        Err(error) => {
            let _ = eprintln!(rt; "{name}: {}", Reason(error));
            Ok(())
        }
        Ok(mut file) => {
            let mut bytes = [0u8; 65536];
            let count = read_full(&mut file, &mut bytes);
            print_case(rt, name, &bytes[..count])
        }
    }
}

// The file that an argument names. A name that is no text names no file that can be opened.
fn try_argument(rt: &(impl Files + Print + Eprint), name: &[u8]) -> io::Result<()> {
    match str::from_utf8(name) {
        Err(error) => {
            let _ = eprintln!(rt; "an argument is no text: {error}");
            Ok(())
        }
        Ok(name) => try_file(rt, name),
    }
}

fn main(rt: HostRuntime) -> io::Result<()> {
    let mut name = [0u8; 4096];
    for index in 1..usize::MAX {
        match rt.arg(index, &mut name) {
            Err(FillError::NotPresent) => break,
            // as an empty name, which names no file either
            Err(FillError::TooLong) => try_file(&rt, "")?,
            Ok(length) => try_argument(&rt, &name[..length])?,
        }
    }
    Ok(())
}
