// Blocks of text: what has been read is answered before the program waits for more.
ghost use Rattle.std.specs.Prelude.{◌<◌};
ghost use Rattle.std.specs.ControlFlow.{ForContinue};

use crate::telling::{tell_broken, tell_malformed};
use crate::tracing::{is_traced, write_closing, write_malformed, write_traced};
use bus::Bus;
use conversation::Heard;
use conversation::tape::keep_rest;
use print::{PRINTED_BYTES, closing};
use status::Status;
use std::io::{Error, Result};
use std::ops::ControlFlow;
use stream::{Came, read_some, write_on};
use transcript::frame::{FRAME_BYTES, MALFORMED};

// How much of the tape is filled with text that is to be answered, and how many lines were answered before it. Nothing says that input
// ends, so a count of the blocks that may come falls at each.
#[derive(Clone, Copy)]
pub struct Block {
    pub filled: usize,
    pub left: u64,
    pub lines: u64,
}

// The line that stands for a refused run.
pub fn close(rt: &HostRuntime, traced: bool, number: u8) -> Result<()> {
    if traced {
        write_closing(rt, &closing(number), b"  refused: nothing is played\n")
    } else {
        write_on(rt, &mut rt.stdout(), &closing(number))
    }
}

// Standard input or output has failed: what was heard last may not have been answered.
fn broken(rt: &HostRuntime, what: &[u8], error: Error, lines: u64) -> Status {
    tell_broken(rt, what, error, lines);
    Status::Broken
}

// The line that ends a malformed run.
fn close_malformed(rt: &HostRuntime, traced: bool) -> Result<()> {
    if traced {
        write_malformed(rt, &closing(MALFORMED))
    } else {
        write_on(rt, &mut rt.stdout(), &closing(MALFORMED))
    }
}

// The text has ended: a line that was begun is malformed.
fn ended(rt: &HostRuntime, begun: &[u8], traced: bool, lines: u64) -> Status {
    if begun.is_empty() {
        return Status::Answered;
    }
    match close_malformed(rt, traced) {
        Ok(()) => {
            tell_malformed(rt, begun, lines.wrapping_add(1));
            Status::Refused
        }
        Err(error) => broken(rt, b"standard output", error, lines),
    }
}

// One read behind the text that was kept. Where nothing came yet, that text is the block again; where there is no more, the run has ended.
pub fn read_block(
    rt: &HostRuntime,
    tape: &mut [u8],
    kept: usize,
    left: u64,
    lines: u64,
) -> ControlFlow<Status, Block>
    ensures { ForContinue result (λ block. block.left < left) }
{
    if left == 0 || tape.len() < kept {
        return ControlFlow::Break(Status::Broken);
    }
    let traced = is_traced(tape);
    match read_some(rt, &mut rt.stdin(), &mut tape[kept..]) {
        Ok(Came::Bytes(got)) => ControlFlow::Continue(Block {
            filled: kept + got,
            left: left - 1,
            lines,
        }),
        Ok(Came::Nothing) => ControlFlow::Continue(Block {
            filled: kept,
            left: left - 1,
            lines,
        }),
        Ok(Came::Ended) => ControlFlow::Break(ended(rt, &tape[..kept], traced, lines)),
        Err(error) => ControlFlow::Break(broken(rt, b"standard input", error, lines)),
    }
}

// The text from the last line on that was answered: each before it has its bytes.
fn last_line(tape: &[u8], filled: usize, written: usize) -> &[u8] {
    let end = filled.min(tape.len());
    let after = written / PRINTED_BYTES * FRAME_BYTES;
    let at = after.saturating_sub(FRAME_BYTES).min(end);
    &tape[at..end]
}

// Writes the answers, keeps what is left of the text, and reads on, unless a malformed line has ended the run.
pub fn next_block(
    rt: &HostRuntime,
    block: Block,
    heard: Heard,
    before: Bus,
    after: Bus,
    tape: &mut [u8],
    said: &[u8],
) -> ControlFlow<Status, Block>
    ensures { ForContinue result (λ next. next.left < block.left) }
{
    let written = heard.written.min(said.len());
    let answers = &said[..written];
    let wrote = if is_traced(tape) {
        write_traced(rt, before, after, heard.over, answers)
    } else {
        write_on(rt, &mut rt.stdout(), answers)
    };
    if let Err(error) = wrote {
        return ControlFlow::Break(broken(rt, b"standard output", error, block.lines));
    }
    let lines = block.lines.wrapping_add((written / PRINTED_BYTES) as u64);
    if heard.over {
        tell_malformed(rt, last_line(tape, block.filled, written), lines);
        return ControlFlow::Break(Status::Refused);
    }
    let kept = keep_rest(tape, block.filled, heard.used);
    read_block(rt, tape, kept, block.left, lines)
}
