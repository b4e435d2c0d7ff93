// Reads a text from standard input, and prints what a clean TMF8X0X session would write to register 0x08.
#![tactic(auto)]

use listings::answer;
use std::io::{Read, Write};
use std::process::ExitCode;

fn main(rt: HostRuntime) -> anyhow::Result<ExitCode> {
    let mut text = Vec::new(rt.alloc());
    // one byte more than is listed shows that a text is too long
    rt.stdin().take(65537).read_to_end(&mut text)?;
    let (bytes, code) = match answer(rt.alloc(), text.as_slice())? {
        Ok(strings) => (strings, ExitCode::SUCCESS),
        Err(line) => (line, ExitCode::FAILURE),
    };
    rt.stdout().write_all(bytes.as_slice())?;
    Ok(code)
}
