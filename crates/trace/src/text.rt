// The words of a line, as they are written.
ghost use Rattle.trace.specs.Plain.{Plain};

use crate::WORDS;
use std::fmt;
use transcript::frame::LF;

// Words so far, at the start of their room. An LF would end the line of the answer, so none is put; what is too long is cut.
#[derive(Drop)]
pub struct Words {
    room: [u8; WORDS],
    size: usize,
    ghost plain: { Plain size room },
}

impl Words {
    pub fn new() -> Words {
        Words {
            room: [0; WORDS],
            size: 0,
        }
    }

    fn put(&mut self, byte: u8) {
        if byte != LF && self.size < WORDS {
            self.room[self.size] = byte;
            self.size += 1;
        }
    }

    // Puts them at the start of a buffer, and says how many bytes they are.
    pub fn put_in(&self, out: &mut [u8]) -> usize
        ensures { Plain result out.new }
    {
        let n = self.size.min(out.len());
        out[..n].copy_from_slice(&self.room[..n]);
        n
    }
}

impl fmt::Write for Words {
    fn write_str(&mut self, text: &str) -> fmt::Result {
        for byte in text.as_bytes() {
            self.put(*byte);
        }
        Ok(())
    }
}
