// A recording: the file NAME has a transcript, NAME.answers what the bench must answer.
use bus::{Bus, SetUp};
use conversation::answer_all;
use conversation::tape::text_on;
use factory::{erased_arrays, erased_registers, mark_serials};
use files::{read_whole, with_ending};
use placing::layout::Board;
use print::{PRINTED_BYTES, closing};
use std::io::Print;

// A transcript, and the answers to it, have fewer bytes than these.
const TEXT: usize = 16_384;

const ANSWERS: usize = 32_768;

// A name with its ending has at most so many bytes.
const PATH: usize = 128;

// How much of a buffer a file fills, where it is there and does not fill all of it.
fn read_file(rt: &HostRuntime, path: &[u8], into: &mut [u8]) -> Option<usize> {
    let most = into.len();
    read_whole(rt, path, into).ok().filter(|size| *size < most)
}

fn read_answers(rt: &HostRuntime, name: &[u8], into: &mut [u8]) -> Option<usize> {
    let mut room = [0u8; PATH];
    let path = with_ending(name, b".answers", &mut room)?;
    read_file(rt, path, into)
}

// The answers to a transcript on a fresh bus, and how many bytes they have; a board that is refused answers once.
fn answers_on(
    board: Board,
    array: &mut [u8],
    security: &mut [u8],
    text: &[u8],
    said: &mut [u8],
) -> usize {
    mark_serials(board.count, board.places, security);
    let SetUp { bus, verdict } = Bus::set_up(board.count, board.places, array, security);
    match verdict {
        Ok(()) => answer_all(bus, array, security, text, said).written,
        Err(refusal) => {
            if PRINTED_BYTES <= said.len() {
                said[..PRINTED_BYTES].copy_from_slice(&closing(u8::from(refusal)));
            }
            PRINTED_BYTES
        }
    }
}

// The first place at which two texts differ, or where the shorter ends.
fn same_until(one: &[u8], other: &[u8]) -> usize {
    one.iter().zip(other).take_while(|(a, b)| a == b).count()
}

// The number of the line that a place lies in, the first being 1.
fn line_number(place: usize) -> u64 {
    (place / PRINTED_BYTES) as u64 + 1
}

// In both test programs: two lines, and no library is for test programs alone.
fn tell(rt: &HostRuntime, name: &[u8], what: &[u8]) {
    let _ = rt.write_all(name);
    let _ = rt.write_all(what);
}

// Whether the answers are those that are recorded; a difference names the file and the line.
fn compare(rt: &HostRuntime, name: &[u8], said: &[u8], recorded: &[u8]) -> bool {
    if said == recorded {
        return true;
    }
    let line = line_number(same_until(said, recorded));
    let _ = rt.write_all(name);
    let _ = println!(rt; ".answers: line {line} differs");
    false
}

// The board in memories of its size. Apart from `answers_of`: beside the arrays themselves, their bounds are not proved (out of stack).
fn answers_in_part(
    board: Board,
    array: &mut [u8],
    security: &mut [u8],
    text: &[u8],
    said: &mut [u8],
) -> usize {
    let array_end = board.array_end(array.len());
    let security_end = board.security_end(security.len());
    answers_on(
        board,
        &mut array[..array_end],
        &mut security[..security_end],
        text,
        said,
    )
}

// The answers on a board.
fn answers_of(board: Board, text: &[u8], said: &mut [u8]) -> usize {
    let mut array = erased_arrays();
    let mut security = erased_registers();
    answers_in_part(board, &mut array, &mut security, text, said)
}

pub fn as_recorded(rt: &HostRuntime, name: &[u8], board: Board) -> bool {
    let mut tape = [0u8; TEXT];
    let mut recorded = [0u8; ANSWERS];
    let Some(filled) = read_file(rt, name, &mut tape) else {
        tell(rt, name, b": missing, or too long\n");
        return false;
    };
    let Some(size) = read_answers(rt, name, &mut recorded) else {
        tell(rt, name, b".answers: missing, or too long\n");
        return false;
    };
    let mut said = [0u8; ANSWERS];
    let written = answers_of(board, text_on(&tape, filled), &mut said);
    compare(rt, name, text_on(&said, written), text_on(&recorded, size))
}
