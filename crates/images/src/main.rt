// Loads recorded Intel HEX files, each into an erased chip, and saves those that are taken (request E1). A word on the command line
// names a file and what is expected of it.
#![tactic(auto)]

mod expected;
mod recorded;
mod whole;

use asking::words::OWN;
use recorded::as_recorded;
use std::env::{Env, FillError};
use std::io;

// A word has fewer bytes than this.
const WORD: usize = 100;

// A word that is too long names no file.
fn main(rt: HostRuntime) -> io::Result<()> {
    let mut room = [0u8; WORD];
    let mut played: u64 = 0;
    let mut differ: u64 = 0;
    for i in OWN..usize::MAX {
        let word = match rt.arg(i, &mut room) {
            Ok(n) => &room[..n],
            Err(FillError::TooLong) => b"",
            Err(FillError::NotPresent) => break,
        };
        if !as_recorded(&rt, word) {
            differ = differ.saturating_add(1);
        }
        played = played.saturating_add(1);
    }
    println!(rt; "{played} played, {differ} differ")
}
