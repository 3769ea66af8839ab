// Prints every small value (document 02, Item 12) in lower-case hex, one a line, shorter first and then by bytes. With an argument, 1, 2 or 3, it prints
// those of at most so many bytes.
#![tactic(auto)]

mod lines;
mod size;

use lines::Lines;
use size::{NoSize, Size};
use std::env::{Env, FillError};
use std::io;
use std::process::ExitCode;

// Prints the lines of one size as they are found, or stops where they can't be printed: there is no room for all of them, which `Display` could show.
fn print_size(rt: &impl Print, size: Size) -> io::Result<()> {
    let mut lines = Lines::new();
    let mut from = 0;
    while let Some(number) = small_values::next(size.bytes, from) {
        lines.add(rt, size, number)?;
        from = number + 1;
    }
    lines.print(rt)
}

fn print_sizes(rt: &impl Print, most: Size) -> io::Result<()> {
    for bytes in 1..=most.bytes {
        print_size(rt, Size { bytes })?;
    }
    Ok(())
}

// The most bytes that are asked for: three without an argument.
fn most_bytes(rt: &impl Env) -> Result<Size, NoSize> {
    let mut word = [0u8; 1];
    match rt.arg(1, &mut word) {
        Ok(_) => Size::try_from(word[0]),
        Err(FillError::NotPresent) => Ok(Size::LONGEST),
        Err(FillError::TooLong) => Err(NoSize),
    }
}

// A list that stops looks like a whole one, so it is said.
fn main(rt: HostRuntime) -> ExitCode {
    let Ok(most) = most_bytes(&rt) else {
        let _ = eprintln!(rt; "the most bytes may be 1, 2 or 3");
        return ExitCode::SUCCESS;
    };
    if print_sizes(&rt, most).is_err() {
        let _ = eprintln!(rt; "the list is not whole: it can't be written");
        return ExitCode::FAILURE;
    }
    ExitCode::SUCCESS
}
