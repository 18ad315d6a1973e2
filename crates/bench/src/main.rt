// The bench program: a transcript on standard input, answers on standard output (paper, "The transcript"). Words on the command line
// name another board than the paper's, files to be loaded before and saved after (request E1), and what is to be seen of it. One bus
// state is held in `answer_input`, lent to each block and moved on where it stands.
#![tactic(auto)]

mod arguments;
mod block;
mod telling;
mod tracing;

use arguments::{Arguments, tell_fault, tell_status};
use block::{close, next_block, read_block};
use bus::{Bus, SetUp};
use conversation::converse;
use conversation::tape::text_on;
use errands::telling::{tell_failure, tell_refusal};
use errands::{Errands, Undone, blank_text};
use factory::{erased_arrays, erased_registers, mark_serials};
use placing::layout::Board;
use print::PRINTED_BYTES;
use refusal::Refusal;
use status::{Status, greatest};
use std::ops::ControlFlow;
use transcript::frame::FRAME_BYTES;

// A block of text, and room for the answers to its lines and for the line that ends a run.
const TAPE: usize = 20_480;

const SAID: usize = TAPE / FRAME_BYTES * PRINTED_BYTES + PRINTED_BYTES;

// The state stands here from the first block to the last, which is answered.
fn answer_input(
    rt: &HostRuntime,
    bus: Bus,
    array: &mut [u8],
    security: &mut [u8],
    tape: &mut [u8],
    said: &mut [u8],
) -> Status {
    let mut held = bus;
    let mut next = read_block(rt, tape, 0, u64::MAX, 0);
    'blocks: loop {
        match next {
            ControlFlow::Break(status) => return status,
            ControlFlow::Continue(block) => {
                let before = held;
                let text = text_on(tape, block.filled);
                let heard = converse(&mut held, array, security, text, said);
                next = next_block(rt, block, heard, before, held, tape, said);
            }
        }
    }
}

// A traced run has a tape for one line, and room for one answer.
fn play_input(
    rt: &HostRuntime,
    traced: bool,
    bus: Bus,
    array: &mut [u8],
    security: &mut [u8],
) -> Status {
    if traced {
        let mut tape = [0u8; FRAME_BYTES];
        let mut said = [0u8; PRINTED_BYTES];
        return answer_input(rt, bus, array, security, &mut tape, &mut said);
    }
    let mut tape = [0u8; TAPE];
    let mut said = [0u8; SAID];
    answer_input(rt, bus, array, security, &mut tape, &mut said)
}

// Nothing is played.
fn refused(rt: &HostRuntime, traced: bool, refusal: Refusal) -> Status {
    match close(rt, traced, u8::from(refusal)) {
        Ok(()) => Status::Refused,
        Err(error) => {
            tell_failure(rt, b"standard output", error);
            Status::Broken
        }
    }
}

// A run that was broken off shows and saves nothing: what it holds is of a part of the text. No event changes the board, so that the
// state as it was set up serves for the rest.
fn finish(
    rt: &HostRuntime,
    status: Status,
    bus: Bus,
    array: &mut [u8],
    security: &[u8],
    text: &mut [u8],
) -> Status {
    if status == Status::Broken {
        return status;
    }
    let mut errands = Errands {
        rt,
        bus,
        array,
        security,
        text,
    };
    greatest(status, errands.finish())
}

// Loads, answers what comes, shows and saves. Arrays and text are lent apart, since the conversation and the errands take them in turn.
fn play(
    rt: &HostRuntime,
    traced: bool,
    bus: Bus,
    array: &mut [u8],
    security: &mut [u8],
    text: &mut [u8],
) -> Status {
    let mut errands = Errands {
        rt,
        bus,
        array: &mut *array,
        security,
        text: &mut *text,
    };
    match errands.begin() {
        Err(Undone::Failed) => Status::Broken,
        Err(Undone::Refused(refusal)) => refused(rt, traced, refusal),
        Ok(()) => {
            let status = play_input(rt, traced, bus, array, security);
            finish(rt, status, bus, array, security, text)
        }
    }
}

// Sets the board up in memories of its size, and plays.
fn serve(
    rt: &HostRuntime,
    traced: bool,
    board: Board,
    array: &mut [u8],
    security: &mut [u8],
    text: &mut [u8],
) -> Status {
    mark_serials(board.count, board.places, security);
    let SetUp { bus, verdict } = Bus::set_up(board.count, board.places, array, security);
    match verdict {
        Err(refusal) => {
            tell_refusal(rt, b"board", 0, refusal);
            refused(rt, traced, refusal)
        }
        Ok(()) => play(rt, traced, bus, array, security, text),
    }
}

// Lends the board memories of its size. Apart from `start`: beside the arrays themselves, their bounds were not proved (out of stack).
fn fit(
    rt: &HostRuntime,
    traced: bool,
    board: Board,
    array: &mut [u8],
    security: &mut [u8],
    text: &mut [u8],
) -> Status {
    let array_end = board.array_end(array.len());
    let security_end = board.security_end(security.len());
    serve(
        rt,
        traced,
        board,
        &mut array[..array_end],
        &mut security[..security_end],
        text,
    )
}

// Memories for the largest board, and room for a file.
fn start(rt: &HostRuntime, traced: bool, board: Board) -> Status {
    let mut array = erased_arrays();
    let mut security = erased_registers();
    let mut text = blank_text();
    fit(rt, traced, board, &mut array, &mut security, &mut text)
}

fn main(rt: HostRuntime) {
    let mut arguments = Arguments::none();
    let status = match arguments.read(&rt) {
        Ok(()) => start(&rt, arguments.traced, arguments.board.or_paper()),
        Err(fault) => {
            tell_fault(&rt, fault);
            Status::NoWord
        }
    };
    tell_status(&rt, arguments.told, status);
}
