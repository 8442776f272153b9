// Reads a file from standard input and writes it to standard output again, as text of version 2.0; or writes one line, `refused N line M`.
#![tactic(auto)]

ghost use Rattle.std.specs.Prelude.{◌≤◌, length};

use std::io::Read;

// One byte more than the longest input, so that a longer one is noticed.
const INPUT_ROOM: usize = 65537;

const OUTPUT_ROOM: usize = 65536;

// Reads until buf is full, the input ends or a read fails, and gives how many bytes it put at the start of buf.
fn read_full<R: Read>(input: &mut R, buf: &mut [u8]) -> usize
    ensures { result ≤ length buf.new }
{
    let mut done = 0;
    while done < buf.len() {
        let got = input.read(&mut buf[done..]).unwrap_or(0);
        if got == 0 {
            break;
        }
        done += got;
    }
    done
}

// Output that fails is passed over: there is nowhere to say so.
fn main(rt: HostRuntime) {
    let mut input = [0u8; INPUT_ROOM];
    let read = read_full(&mut rt.stdin(), &mut input);
    let mut output = [0u8; OUTPUT_ROOM];
    match recoding::recode(&input[..read], &mut output) {
        Ok(n) => {
            let _ = rt.write_all(&output[..n]);
        }
        Err(fault) => {
            let mut text = [0u8; 64];
            let len = recode_text::write_refusal(fault.number, fault.line, &mut text);
            let _ = rt.write_all(&text[..len]);
        }
    }
}
