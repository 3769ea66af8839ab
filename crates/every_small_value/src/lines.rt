// Lines that wait to be printed together.
ghost use Rattle.std.specs.Prelude.{◌≡◌, [], ◌∷◌, ◌++◌, ◌≤◌, length, IfOk};
ghost use Rattle.encoding.specs.Digits.{low_digits};
ghost use Rattle.words.specs.Hex.{hex_text};

use crate::size::Size;
use std::io;
use words::filled::Filled;

// How many bytes are printed at once, at most.
const BLOCK: usize = 65536;

// How many bytes may wait where a line, of at most six digits and a line feed, is put behind them.
const MOST_WAITING: usize = 65529;

#[derive(Drop)]
pub(crate) struct Lines {
    waiting: Filled<BLOCK>,
}

impl Lines {
    pub(crate) fn new() -> Self {
        Lines {
            waiting: Filled::new(),
        }
    }

    // Puts the line of a string.
    fn put(&mut self, size: Size, number: u32)
        requires { length self.old.waiting ≤ 65529 }
        ensures { self.new.waiting ≡ self.old.waiting ++ (hex_text (low_digits 256 size.bytes number) ++ (10 ∷ [])) }
    {
        // Nothing allocates, so a string is a part of an array, and in `main` the argument is one.
        let mut string = [0u8; 3];
        let string = &mut string[..size.bytes];
        small_values::spell(string, number);
        self.waiting.append_hex(string);
        self.waiting.append(b"\n");
    }

    pub(crate) fn print(&mut self, rt: &impl Print) -> io::Result<()>
        ensures { IfOk result (λ _. self.new.waiting ≡ []) }
    {
        rt.write_all(self.waiting.used())?;
        self.waiting.clear();
        Ok(())
    }

    // Puts the line of a string behind those that wait, which are printed first where it might not fit.
    pub(crate) fn add(&mut self, rt: &impl Print, size: Size, number: u32) -> io::Result<()> {
        if MOST_WAITING < self.waiting.used().len() {
            self.print(rt)?;
        }
        self.put(size, number);
        Ok(())
    }
}
