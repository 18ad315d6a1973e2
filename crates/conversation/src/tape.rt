// A tape: a buffer of text of which the first bytes are filled.
ghost use Rattle.std.specs.Prelude.{◌≡◌, length};
ghost use Rattle.conversation.specs.Tape.{text_on, ShowsText, keep_rest};

// Where the text on a tape ends: a tape has no more than its length.
pub fn text_end(tape: &[u8], filled: usize) -> usize
    ensures { result ≡ length (text_on tape.now filled) }
{
    filled.min(tape.len())
}

// The text on a tape, where it lies.
pub fn text_on(tape: &[u8], filled: usize) -> &[u8]
    ensures { ShowsText tape.entry filled result }
{
    &tape[..text_end(tape, filled)]
}

// Moves what is left of the text to the tape's start, so that the next block is read behind it, and answers how much that is. Tape and length are
// apart, since memory is fixed: the next block is read into the same tape.
#[tactic(auto, using(crate::proofs::Laws::moved))]
pub fn keep_rest(tape: &mut [u8], filled: usize, used: usize) -> usize
    ensures { (result, tape.new) ≡ keep_rest tape.old filled used }
{
    let end = text_end(tape, filled);
    let from = used.min(end);
    tape.copy_within(from..end, 0);
    end - from
}
