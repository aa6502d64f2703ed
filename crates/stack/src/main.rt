// The program `stack`: a burst file from standard input, its text to standard output. What cannot be read or written is said on standard error.
#![tactic(auto)]

use file_input::Reason;
use printing::Text;
use report::sizes::{FILE_ROOM, TEXT_ROOM};

fn main(rt: HostRuntime) {
    let mut file = [0u8; FILE_ROOM];
    let mut text = Text::<TEXT_ROOM>::new();
    match file_input::read_all(&mut rt.stdin(), &mut file) {
        Err(error) => {
            let _ = eprintln!(rt; "stack: standard input: {}", Reason(error));
        }
        Ok(count) => {
            report::stack_text(&file, count, &mut text);
            if let Err(error) = rt.write_all(text.as_bytes()) {
                let _ = eprintln!(rt; "stack: standard output: {}", Reason(error));
            }
        }
    }
}
