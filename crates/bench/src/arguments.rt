// The words on the command line. One to four that name a place each ask for a board, none for the paper's; any number ask for files and
// pages. The first may name the descriptor on which the launcher hears how the run ended.
use asking::asked_by;
use asking::page::page_asked;
use asking::status::status_asked;
use asking::trace::asks_trace;
use asking::words::OWN;
use board::{PLACES, Place};
use errands::telling::{errors, tell_too_long};
use errands::{WORD, blank_word};
use placing::layout::Board;
use placing::place_named;
use print::byte_text;
use status::Status;
use std::env::{Env, FillError};
use std::fs::OpenOptions;
use std::io;
use std::io::{Cursor, Write};
use stream::write_on;
use transcript::frame::LF;

// The first unknown word, by its place.
#[derive(Clone, Copy)]
pub enum WordFault {
    Unknown(usize),
    FifthChip(usize),
    TooLong,
}

// What the words ask for, and the descriptor on which the launcher hears how the run ended.
#[derive(Clone, Copy)]
pub struct Arguments {
    pub board: Board,
    pub traced: bool,
    pub told: Option<u8>,
}

impl Arguments {
    // What is asked for without words. The board is bare.
    pub fn none() -> Self {
        Self {
            board: Board::bare(),
            traced: false,
            told: None,
        }
    }

    // One chip more, if there is a place for it.
    fn place(&mut self, place: Place, i: usize) -> Result<(), WordFault> {
        if PLACES <= self.board.count {
            return Err(WordFault::FifthChip(i));
        }
        self.board = self.board.with_chip(place);
        Ok(())
    }

    // One word more. Only the first says where the status is told: any other is the user's, and no launcher's.
    fn take(&mut self, i: usize, word: &[u8]) -> Result<(), WordFault> {
        if let Some(place) = place_named(word) {
            return self.place(place, i);
        }
        if asked_by(word).is_some() || page_asked(word).is_some() {
            return Ok(());
        }
        if asks_trace(word) {
            self.traced = true;
            return Ok(());
        }
        match status_asked(word) {
            Some(descriptor) if i == OWN => {
                self.told = Some(descriptor);
                Ok(())
            }
            _ => Err(WordFault::Unknown(i)),
        }
    }

    // What all words ask for, up to the first unknown one.
    pub fn read(&mut self, rt: &HostRuntime) -> Result<(), WordFault> {
        let mut room = blank_word();
        for i in OWN..usize::MAX {
            match rt.arg(i, &mut room) {
                Ok(n) => self.take(i, &room[..n])?,
                Err(FillError::TooLong) => return Err(WordFault::TooLong),
                Err(FillError::NotPresent) => break,
            }
        }
        Ok(())
    }
}

// The word at a place, and what is wrong with it.
fn write_fault(rt: &HostRuntime, i: usize, fault: &[u8]) -> io::Result<()> {
    let mut to = errors(rt);
    let mut space = blank_word();
    to.write_all(b"bench: ")?;
    if let Ok(n) = rt.arg(i, &mut space) {
        to.write_all(&space[..n])?;
    }
    to.write_all(fault)
}

pub fn tell_fault(rt: &HostRuntime, fault: WordFault) {
    match fault {
        WordFault::Unknown(i) => {
            let _ = write_fault(rt, i, b": no such word (./bench --help lists them)\n");
        }
        WordFault::FifthChip(i) => {
            let _ = write_fault(rt, i, b": a fifth chip, and a board has one to four\n");
        }
        WordFault::TooLong => tell_too_long(rt, b"a word", WORD),
    }
}

// A descriptor's name among files has at most so many bytes.
const NAME: usize = 32;

// std reaches a descriptor by its name among files alone, unless it is one of the three that it names itself.
fn write_by_name(rt: &HostRuntime, descriptor: u8, text: &[u8]) -> io::Result<()> {
    let mut name = Cursor::new([0u8; NAME]);
    write!(name, "/proc/self/fd/{descriptor}")?;
    let n = (name.position() as usize).min(NAME);
    let bytes = name.into_inner();
    match std::str::from_utf8(&bytes[..n]) {
        Ok(path) => {
            let mut file = OpenOptions::new().append(true).open(rt, path)?;
            write_on(rt, &mut file, text)
        }
        Err(_) => Ok(()),
    }
}

const INPUT: u8 = 0;

const OUTPUT: u8 = 1;

const ERRORS: u8 = 2;

// Writes on a descriptor that the program was started with. Opened anew by its name, the file that is read would be written to.
fn write_on_descriptor(rt: &HostRuntime, descriptor: u8, text: &[u8]) -> io::Result<()> {
    match descriptor {
        INPUT => Ok(()),
        OUTPUT => write_on(rt, &mut rt.stdout(), text),
        ERRORS => write_on(rt, &mut rt.stderr(), text),
        _ => write_by_name(rt, descriptor, text),
    }
}

// The status as a digit, then LF.
pub fn tell_status(rt: &HostRuntime, told: Option<u8>, status: Status) {
    if let Some(descriptor) = told {
        let [_, digit] = byte_text(u8::from(status));
        let _ = write_on_descriptor(rt, descriptor, &[digit, LF]);
    }
}
