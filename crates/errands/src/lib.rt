// The errands on the command line: files to be loaded before a run, pages to be shown and files to be saved after it (request E1). The
// words are gone through once for each pass, so that there may be any number of them.
#![tactic(auto)]

mod dump;
pub mod telling;

ghost use Rattle.std.specs.Prelude.{◌≡◌, length};

use asking::page::{PageAsked, page_asked};
use asking::words::OWN;
use asking::{Asked, PATH, asked_by};
use bus::Bus;
use dump::show;
use files::{Unread, prepare, read_whole, write_whole};
use image::loading::load;
use image::saving::save;
use lineup::places_of;
use pages::page_verdict;
use refusal::Refusal;
use status::{Status, greatest};
use std::env::{Env, FillError};
use std::io::Error;
use telling::{tell_failure, tell_no_page, tell_refusal, tell_too_long};

// The most bytes of a path, as C counts them.
const PATH_MAX: usize = 4_096;

// The most bytes of a word that is an errand.
pub const WORD: usize = PATH + PATH_MAX;

// The most bytes of a file.
const TEXT: usize = 2_097_152;

// Room for a file. The length is said by itself, so that no caller has to count the bytes. (No generic room: each caller would name its size.)
pub fn blank_text() -> [u8; TEXT]
    ensures { 2097152 ≡ length result }
{
    [0u8; TEXT]
}

// Room for a word.
pub fn blank_word() -> [u8; WORD]
    ensures { 4103 ≡ length result }
{
    [0u8; WORD]
}

// Why an errand is not done: it is refused, or a file cannot be read or written. Either was reported on standard error.
#[derive(Clone, Copy, Debug, PartialEq, Eq)]
pub enum Undone {
    Refused(Refusal),
    Failed,
}

impl From<Undone> for Status {
    ghost from_gives = { λ _ _. Unit {0} };

    fn from(undone: Undone) -> Self {
        match undone {
            Undone::Refused(_) => Self::Refused,
            Undone::Failed => Self::Broken,
        }
    }
}

// Reports a refusal, with the line of the file where one is at fault.
fn refused(rt: &HostRuntime, name: &[u8], line: usize, refusal: Refusal) -> Undone {
    tell_refusal(rt, name, line, refusal);
    Undone::Refused(refusal)
}

// Reports why a call failed.
fn failed(rt: &HostRuntime, name: &[u8], error: Error) -> Undone {
    tell_failure(rt, name, error);
    Undone::Failed
}

// Shows each word, as long as the visitor goes on. One that is longer than any errand is shown as the empty word. Private: who calls a
// visitor has to require that it may be called.
fn each_word<F: FnMut(&[u8]) -> Result<(), Undone>>(
    rt: &HostRuntime,
    mut visit: F,
) -> Result<(), Undone>
    requires { F.IsAlwaysCallable visit }
{
    let mut room = blank_word();
    for i in OWN..usize::MAX {
        match rt.arg(i, &mut room) {
            Ok(n) => visit(&room[..n])?,
            Err(FillError::TooLong) => visit(b"")?,
            Err(FillError::NotPresent) => break,
        }
    }
    Ok(())
}

// A board with its memories, and room for a file: what the errands are run on.
// Each field that is lent to be written has a lifetime of its own, so that the borrow checker lends it beside the others.
#[derive(Drop)]
pub struct Errands<'a, 'm, 't> {
    pub rt: &'a HostRuntime,
    pub bus: Bus,
    pub array: &'m mut [u8],
    pub security: &'a [u8],
    pub text: &'t mut [u8],
}

impl Errands<'_, '_, '_> {
    // Each chip and page must be there.
    fn check(&mut self, word: &[u8]) -> Result<(), Undone> {
        let (rt, bus, security) = (self.rt, self.bus, self.security);
        if let Some(Asked::Load(chip) | Asked::Save(chip)) = asked_by(word) {
            let verdict = bus.chip_verdict(self.array, security, chip);
            return verdict.map_err(|refusal| refused(rt, word, 0, refusal));
        }
        let Some(asked) = page_asked(word) else {
            return Ok(());
        };
        let verdict = page_verdict(
            bus,
            self.array,
            security,
            asked.chip,
            asked.store,
            asked.page,
        );
        verdict.map_err(|refusal| {
            tell_no_page(rt, word, refusal);
            Undone::Refused(refusal)
        })
    }

    fn load_file(&mut self, chip: usize, path: &[u8]) -> Result<(), Undone> {
        let (rt, bus, security) = (self.rt, self.bus, self.security);
        let array = &mut *self.array;
        let text = &mut *self.text;
        let size = match read_whole(rt, path, text) {
            Ok(size) => size,
            Err(Unread::TooLong) => {
                tell_too_long(rt, path, text.len());
                return Err(Undone::Failed);
            }
            Err(Unread::Failed(error)) => return Err(failed(rt, path, error)),
        };
        let loaded = load(bus, array, security, chip, &text[..size]);
        loaded.map_err(|error| refused(rt, path, error.line, error.refusal))
    }

    // Loads the file that a word names.
    fn load(&mut self, word: &[u8]) -> Result<(), Undone> {
        match asked_by(word) {
            Some(Asked::Load(chip)) => self.load_file(chip, &word[PATH..]),
            _ => Ok(()),
        }
    }

    // Sees before the run that the file can be written to.
    fn prepare(&mut self, word: &[u8]) -> Result<(), Undone> {
        let rt = self.rt;
        match asked_by(word) {
            Some(Asked::Save(_)) => {
                let path = &word[PATH..];
                prepare(rt, path).map_err(|error| failed(rt, path, error))
            }
            _ => Ok(()),
        }
    }

    // Shows the page of a chip that was seen to be there.
    fn show(&mut self, word: &[u8]) -> Result<(), Undone> {
        let (rt, bus, security) = (self.rt, self.bus, self.security);
        let Some(PageAsked { chip, store, page }) = page_asked(word) else {
            return Ok(());
        };
        let places = places_of(bus.chips);
        let Some(place) = places.get(chip) else {
            return Ok(());
        };
        let shown = pages::page(bus, self.array, security, chip, store, page);
        show(rt, word, chip, *place, store, page, shown).map_err(|error| failed(
            rt,
            b"standard output",
            error,
        ))
    }

    fn save_file(&mut self, chip: usize, path: &[u8]) -> Result<(), Undone> {
        let (rt, bus, security) = (self.rt, self.bus, self.security);
        let array = &mut *self.array;
        let text = &mut *self.text;
        let saved = save(bus, array, security, chip, text);
        let size = saved.map_err(|refusal| refused(rt, path, 0, refusal))?;
        let end = size.min(text.len());
        write_whole(rt, path, &text[..end]).map_err(|error| failed(rt, path, error))
    }

    // Saves to the file that a word names.
    fn save(&mut self, word: &[u8]) -> Result<(), Undone> {
        match asked_by(word) {
            Some(Asked::Save(chip)) => self.save_file(chip, &word[PATH..]),
            _ => Ok(()),
        }
    }

    // Before a run: nothing is to be played unless all is done. The first that is not ends it.
    pub fn begin(&mut self) -> Result<(), Undone> {
        let rt = self.rt;
        each_word(rt, |word| self.check(word))?;
        each_word(rt, |word| self.load(word))?;
        each_word(rt, |word| self.prepare(word))
    }

    // After it, in two passes of one form: a function that takes the method would take the borrow of all fields with it. The others are shown and saved,
    // whatever is not done. The state is asked for its board alone, which no event changes.
    pub fn finish(&mut self) -> Status {
        let rt = self.rt;
        let mut shown = Status::Answered;
        let _ = each_word(rt, |word| -> Result<(), Undone> {
            if let Err(undone) = self.show(word) {
                shown = Status::from(undone);
            }
            Ok(())
        });
        let mut saved = Status::Answered;
        let _ = each_word(rt, |word| -> Result<(), Undone> {
            if let Err(undone) = self.save(word) {
                saved = Status::from(undone);
            }
            Ok(())
        });
        greatest(shown, saved)
    }
}
