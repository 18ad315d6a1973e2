// The words on the command line, one after the other.
use std::env::{Env, FillError};

// The first word is the program's own name.
pub const OWN: usize = 1;

// Shows each word after the program's name, with its place, as long as the visitor goes on. A word that is too long for the room is
// shown as `None`. The programs here have the loop in their own code: lent an `impl Env`, this reaches four C functions that they do not
// need (docs/DECISIONS.md, B74).
pub fn each_word<E, F: FnMut(usize, Option<&[u8]>) -> Result<(), E>>(
    rt: &impl Env,
    room: &mut [u8],
    mut visit: F,
) -> Result<(), E>
    requires { F.IsAlwaysCallable visit }
{
    for i in OWN..usize::MAX {
        match rt.arg(i, room) {
            Ok(n) => visit(i, Some(&room[..n]))?,
            Err(FillError::TooLong) => visit(i, None)?,
            Err(FillError::NotPresent) => break,
        }
    }
    Ok(())
}

#[cfg(test)]
mod tests {
    use super::each_word;
    use std::env::{Env, FillError};

    const ROOM: usize = 8;

    // One is too long for the room, one is empty, and one fills it.
    const WORDS: [&[u8]; 5] = [b"bench", b"1:0", b"save:0:image.hex", b"", b"status:3"];

    const COUNT: usize = 1_000;

    // A command line of `COUNT` words, those of `WORDS` over and over.
    struct Line;

    fn word_at(i: usize) -> Option<&'static [u8]> {
        if i < COUNT {
            WORDS.get(i % WORDS.len()).copied()
        } else {
            None
        }
    }

    impl Env for Line {
        fn arg(&self, i: usize, buf: &mut [u8]) -> Result<usize, FillError> {
            let word = word_at(i).ok_or(FillError::NotPresent)?;
            let to = buf.get_mut(..word.len()).ok_or(FillError::TooLong)?;
            to.copy_from_slice(word);
            Ok(word.len())
        }

        fn var(&self, _name: &str, _buf: &mut [u8]) -> Result<usize, FillError> {
            Err(FillError::NotPresent)
        }

        fn var_at(&self, _i: usize, _buf: &mut [u8]) -> Result<usize, FillError> {
            Err(FillError::NotPresent)
        }
    }

    #[test]
    fn each_word_is_shown_once_in_turn(rt: HostRuntime) {
        let mut room = [0u8; ROOM];
        let mut calls: usize = 0;
        let mut alike: usize = 0;
        let ended = each_word(&Line, &mut room, |i, word| -> Result<(), u8> {
            calls = calls.saturating_add(1);
            if i == calls && word == word_at(i).filter(|word| word.len() <= ROOM) {
                alike = alike.saturating_add(1);
            }
            Ok(())
        });
        assert_eq!(rt; ended, Ok(()));
        assert_eq!(rt; (calls, alike), (999, 999));
    }

    #[test]
    fn the_first_failure_ends_it(rt: HostRuntime) {
        let mut room = [0u8; ROOM];
        let mut calls: usize = 0;
        let ended = each_word(&Line, &mut room, |i, _| {
            calls = calls.saturating_add(1);
            if i < 7 { Ok(()) } else { Err(i) }
        });
        assert_eq!(rt; ended, Err(7));
        assert_eq!(rt; calls, 7);
    }
}
