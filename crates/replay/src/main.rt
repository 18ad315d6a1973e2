// Plays recorded transcripts, each on a fresh bus, and compares the answers with those that are recorded. The words on the command
// line are the recordings' names; before a name stand the words of its board, PART:STRAP, and without any it is the paper's.
#![tactic(auto)]

mod recording;

use asking::words::OWN;
use placing::layout::Board;
use placing::place_named;
use recording::as_recorded;
use std::env::{Env, FillError};
use std::io;

// A word has fewer bytes than this.
const WORD: usize = 100;

// How many recordings were played, how many of them differ, and the board of the next, as far as it was named.
#[derive(Clone, Copy)]
struct Tally {
    board: Board,
    played: u64,
    differ: u64,
}

impl Tally {
    // A word is a chip of the next board, or the name of a recording to be played on it.
    fn take(&mut self, rt: &HostRuntime, word: &[u8]) {
        if let Some(place) = place_named(word) {
            self.board = self.board.with_chip(place);
            return;
        }
        if !as_recorded(rt, word, self.board.or_paper()) {
            self.differ = self.differ.saturating_add(1);
        }
        self.played = self.played.saturating_add(1);
        self.board = Board::bare();
    }
}

// A word that is too long names no recording.
fn main(rt: HostRuntime) -> io::Result<()> {
    let mut room = [0u8; WORD];
    let mut tally = Tally {
        board: Board::bare(),
        played: 0,
        differ: 0,
    };
    for i in OWN..usize::MAX {
        match rt.arg(i, &mut room) {
            Ok(n) => tally.take(&rt, &room[..n]),
            Err(FillError::TooLong) => tally.take(&rt, b""),
            Err(FillError::NotPresent) => break,
        }
    }
    let Tally { played, differ, .. } = tally;
    println!(rt; "{played} played, {differ} differ")
}
