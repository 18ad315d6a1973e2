// Whole files, by name. No contract can say what a file holds, only that what was read fits the buffer.
#![tactic(auto)]

ghost use Rattle.std.specs.Prelude.{◌≡◌, ◌≤◌, ◌++◌, length, IfSome, IsNone, ◌↔◌, ◌<◌, ◌+◌};
ghost use Rattle.std.specs.Io.{ReadsAtMost};
ghost use Rattle.files.specs.Content.{size_of};

use std::fs::{Files, OpenFile, OpenOptions};
use std::io;
use std::io::{Error, ErrorKind, Read, Write};

// Why a file was not read: it is more than the buffer holds; or a call failed, and why.
#[derive(Clone, Copy, Debug)]
pub enum Unread {
    TooLong,
    Failed(Error),
}

impl From<Error> for Unread {
    ghost use Rattle.files.specs.declared.Unread.TheVariants.{Failed};

    ghost from_gives = { λ error unread. unread ≡ Failed error };

    fn from(error: Error) -> Self
        ensures { result ≡ Failed error }
    {
        Self::Failed(error)
    }
}

// C's number for bytes that are no text.
const EILSEQ: i32 = 84;

// std opens a file by a name that is text alone.
fn open<R: Files>(files: &R, path: &[u8], options: &OpenOptions) -> io::Result<R::File> {
    match std::str::from_utf8(path) {
        Ok(name) => options.open(files, name),
        Err(_) => Err(Error::from_raw_os_error(EILSEQ)),
    }
}

// One read, asked again where a signal interrupts it. That of `stream` also waits where a descriptor is not to wait, which a file does not ask.
fn read_some<F: Read>(file: &mut F, room: &mut [u8]) -> io::Result<usize>
    ensures { ReadsAtMost result room.new }
{
    for _ in 0..u64::MAX {
        match file.read(room) {
            Err(error) if error.kind() == ErrorKind::Interrupted => {}
            answer => return answer,
        }
    }
    Err(Error::from(ErrorKind::Interrupted))
}

// The buffer is full: the file is whole if nothing comes any more.
fn end_of<F: Read>(file: &mut F, size: usize) -> Result<usize, Unread>
    ensures { size_of result ≤ size }
{
    let mut more = [0u8; 1];
    if read_some(file, &mut more)? == 0 {
        Ok(size)
    } else {
        Err(Unread::TooLong)
    }
}

// A read that brings less than there is room for is not the end: one that brings nothing is. The loop counts bytes, and not its turns.
fn read_all<F: Read>(file: &mut F, into: &mut [u8]) -> Result<usize, Unread>
    ensures { size_of result ≤ length into.new }
{
    let mut size: usize = 0;
    while size < into.len() {
        let more = read_some(file, &mut into[size..])?;
        if more == 0 {
            return Ok(size);
        }
        size += more;
    }
    end_of(file, size)
}

// Reads the file to its end, if the buffer holds it: so many bytes, at the buffer's start. What stands in the buffer past them is not
// said.
pub fn read_whole(files: &impl Files, path: &[u8], into: &mut [u8]) -> Result<usize, Unread>
    ensures { size_of result ≤ length into.new }
{
    let mut file = open(files, path, OpenOptions::new().read(true))?;
    read_all(&mut file, into)
}

// Whether a failure only says that there is nothing to wait for, as at a device, a pipe or a terminal.
fn has_no_store(error: Error) -> bool {
    matches!(
        error.kind(),
        ErrorKind::InvalidInput | ErrorKind::ReadOnlyFilesystem | ErrorKind::Unsupported
    )
}

// Some files show only behind the last write that a write was lost. std closes a file without saying what came of it, so it is asked
// before.
fn see_stored(file: &impl OpenFile) -> io::Result<()> {
    match file.sync_all() {
        Err(error) if has_no_store(error) => Ok(()),
        synced => synced,
    }
}

// The file is this text and nothing else, whatever it was, and made where it is missing; a device is written to.
pub fn write_whole(files: &impl Files, path: &[u8], text: &[u8]) -> io::Result<()> {
    let mut file = open(
        files,
        path,
        OpenOptions::new().write(true).create(true).truncate(true),
    )?;
    file.write_all(text)?;
    see_stored(&file)
}

// Sees that the file can be written to: it is made where it is missing, and else stays as it is.
pub fn prepare(files: &impl Files, path: &[u8]) -> io::Result<()> {
    match open(files, path, OpenOptions::new().append(true)) {
        Ok(_) => Ok(()),
        Err(error) if error.kind() == ErrorKind::NotFound => write_whole(files, path, b""),
        Err(error) => Err(error),
    }
}

// The name with its ending, at the start of a room for it.
pub fn with_ending<'a>(name: &[u8], ending: &[u8], room: &'a mut [u8]) -> Option<&'a [u8]>
    ensures path { IfSome result (λ path. path.now ≡ name.now ++ ending.now) }
    ensures fits { IsNone result ↔ (length room.old < length name.now + length ending.now) }
{
    if room.len() < name.len() || room.len() - name.len() < ending.len() {
        return None;
    }
    let path = &mut room[..name.len() + ending.len()];
    let (start, end) = path.split_at_mut(name.len());
    start.copy_from_slice(name);
    end.copy_from_slice(ending);
    Some(path)
}
