// A recorded file: what loading answers, and, of one that is taken, NAME.want, which has the text that saving must write.
ghost use Rattle.std.specs.Prelude.{◌≤◌, ◌≡◌, length, IfSome};

use crate::expected::{Expected, NAME, expected_by};
use crate::whole::{fill_in, other_line};
use board::Place;
use bus::{Bus, SetUp};
use factory::{erased_arrays, erased_registers};
use files::{read_whole, with_ending};
use image::loading::load;
use image::saving::save;
use placing::layout::Board;
use refusal::{Refusal, status_of};
use std::io::Print;

// The most bytes of a file, and of what is saved.
const TEXT: usize = 524_288;

// A name with its ending has at most so many bytes.
const PATH: usize = 128;

// The board's one chip.
const CHIP: usize = 0;

const ERASED: u8 = 0xFF;

// The number of a text buffer that is too short. The number itself is tried, so no name of `Refusal`.
const SHORT_TEXT: usize = 19;

// Room for a file. The length is said by itself, so that no caller has to count the bytes.
fn blank_text() -> [u8; TEXT]
    ensures { 524288 ≡ length result }
{
    [0u8; TEXT]
}

// In both test programs: two lines, and no library is for test programs alone.
fn tell(rt: &HostRuntime, name: &[u8], what: &[u8]) {
    let _ = rt.write_all(name);
    let _ = rt.write_all(what);
}

// How much of the buffer a file fills, where it is there and no longer than that.
fn read_text(rt: &HostRuntime, path: &[u8], into: &mut [u8]) -> Option<usize>
    ensures { IfSome result (λ size. size ≤ length into.new) }
{
    match read_whole(rt, path, into) {
        Ok(size) => Some(size),
        Err(_) => {
            tell(rt, path, b": missing, or too long\n");
            None
        }
    }
}

// A word's file, and what is told of it.
#[derive(Clone, Copy)]
struct Recorded<'a> {
    rt: &'a HostRuntime,
    name: &'a [u8],
    expected: Expected,
}

impl Recorded<'_> {
    fn tell(&self, what: &[u8]) {
        tell(self.rt, self.name, what);
    }

    // Whether a number is the one expected; another is reported.
    fn is_same(&self, what: &[u8], expected: usize, answered: usize) -> bool {
        if expected != answered {
            self.tell(what);
            let _ = println!(self.rt; "{expected} expected, {answered} answered");
        }
        expected == answered
    }

    // A file that is refused stores nothing.
    fn stays_erased(&self, array: &[u8]) -> bool {
        let erased = array.iter().all(|byte| *byte == ERASED);
        if !erased {
            self.tell(b": array: changed, though the file is refused\n");
        }
        erased
    }

    // Whether the text in a buffer is the whole one; the line at which it differs is reported.
    fn is_text(&self, text: &[u8], whole: &[u8]) -> bool {
        let Some(line) = other_line(text, whole) else {
            return true;
        };
        self.tell(b": text: line ");
        let _ = println!(self.rt; "{line} of what is saved differs");
        false
    }

    // Whether a buffer without room for the text is refused.
    fn is_too_short(&self, bus: Bus, array: &[u8], security: &[u8], text: &mut [u8]) -> bool {
        let saved = save(bus, array, security, CHIP, text);
        let same_number = self.is_same(b": short buffer, number: ", SHORT_TEXT, number_of(saved));
        let same_size = self.is_same(b": short buffer, written: ", 0, saved.unwrap_or(0));
        same_number && same_size
    }

    // Saves into a buffer that has just room for the text, and into one that is a byte shorter.
    fn saves_as(
        &self,
        bus: Bus,
        array: &[u8],
        security: &[u8],
        whole: &[u8],
        text: &mut [u8],
    ) -> bool {
        let size = whole.len().min(text.len());
        let saved = save(bus, array, security, CHIP, &mut text[..size]);
        if !self.is_same(b": text, number: ", 0, number_of(saved)) {
            return false;
        }
        let written = saved.unwrap_or(0).min(text.len());
        if !self.is_text(&text[..written], whole) {
            return false;
        }
        let room = whole.len().saturating_sub(1).min(text.len());
        self.is_too_short(bus, array, security, &mut text[..room])
    }

    // Whether what was loaded is saved as recorded.
    fn saves(
        &self,
        bus: Bus,
        array: &[u8],
        security: &[u8],
        whole: &mut [u8],
        text: &mut [u8],
    ) -> bool {
        let mut room = [0u8; PATH];
        let Some(path) = with_ending(self.name, b".want", &mut room) else {
            self.tell(b": missing, or too long\n");
            return false;
        };
        let Some(size) = read_text(self.rt, path, text) else {
            return false;
        };
        let filled = fill_in(&text[..size], array.len(), whole);
        let end = filled.min(whole.len());
        self.saves_as(bus, array, security, &whole[..end], text)
    }

    // Whether a file is answered as expected, and does to the array what it should.
    fn loads(
        &self,
        bus: Bus,
        array: &mut [u8],
        security: &[u8],
        text: &mut [u8],
        spare: &mut [u8],
    ) -> bool {
        let Some(size) = read_text(self.rt, self.name, text) else {
            return false;
        };
        let loaded = load(bus, array, security, CHIP, &text[..size]);
        let number = status_of(loaded.map_err(|error| error.refusal)) as usize;
        let line = loaded.err().map_or(0, |error| error.line);
        let same_number = self.is_same(b": number: ", self.expected.number, number);
        let same_line = self.is_same(b": line: ", self.expected.line, line);
        if !(same_number && same_line) {
            return false;
        }
        match loaded {
            Ok(()) => self.saves(bus, array, security, text, spare),
            Err(_) => self.stays_erased(array),
        }
    }

    // On a fresh bus, in memories of the board's size.
    fn plays(
        &self,
        array: &mut [u8],
        security: &mut [u8],
        text: &mut [u8],
        spare: &mut [u8],
    ) -> bool {
        let board = board_of(self.expected.part);
        let array_end = board.array_end(array.len());
        let security_end = board.security_end(security.len());
        let array = &mut array[..array_end];
        let security = &mut security[..security_end];
        let SetUp { bus, verdict } = Bus::set_up(board.count, board.places, array, security);
        match verdict {
            Ok(()) => self.loads(bus, array, security, text, spare),
            Err(_) => {
                self.tell(b": there is no such part\n");
                false
            }
        }
    }
}

// The number of a refusal, 0 of a text that is saved.
fn number_of(saved: Result<usize, Refusal>) -> usize {
    status_of(saved.and(Ok(()))) as usize
}

// One chip, at strap 0.
fn board_of(part: u8) -> Board {
    Board::bare().with_chip(Place { part, strap: 0 })
}

// Whether the file of a word is answered as the word says.
pub fn as_recorded(rt: &HostRuntime, word: &[u8]) -> bool {
    let Some(expected) = expected_by(word) else {
        tell(rt, word, b": not PART:NN:LLLLL:NAME\n");
        return false;
    };
    let recorded = Recorded {
        rt,
        name: &word[NAME..],
        expected,
    };
    let mut array = erased_arrays();
    let mut security = erased_registers();
    let mut text = blank_text();
    let mut spare = blank_text();
    recorded.plays(&mut array, &mut security, &mut text, &mut spare)
}
