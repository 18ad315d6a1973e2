// What the bench refuses, with the paper's numbers, and what it answers (paper, "Events and replies").
#![tactic(auto)]

ghost use Rattle.std.specs.Prelude.{◌≡◌};
ghost use Rattle.std.specs.Result.{is_ok};
ghost use Rattle.refusal.specs.Refusal.{number_of, status_of, answer_word};

// In the order of the paper's table, then of the requests. Number 9, a malformed line, is the transcript's.
#[derive(Clone, Copy, Debug, PartialEq, Eq)]
pub enum Refusal {
    // No chips, or more than four.
    WrongCount,
    UnknownPart,
    // A strap outside its part's range.
    StrapOutside,
    // Two chips match one address byte.
    SharedAddress,
    // Array store, then security store.
    WrongLength,
    // An event's kind.
    UnknownKind,
    // A value not allowed for its kind; a chip, store or page that does not exist.
    WrongValue,
    // A byte sent while a chip is sending, or read while a chip is taking bytes.
    Clash,
    NotWellFormed,
    // An answer buffer shorter than the event list.
    ShortBuffer,
    // A text buffer shorter than the text of an image (request E1, as all that follow up to the end record).
    ShortText,
    // A bad digit or length in a record.
    BadRecord,
    WrongSum,
    UnknownType,
    // A record names an address past the array.
    PastArray,
    // No end record, or text after it.
    NoEnd,
    // Cycle over at a chip that has none (request E2).
    NotBusy,
}

impl From<Refusal> for u8 {
    ghost from_gives = { λ refusal n. n ≡ number_of refusal };

    fn from(refusal: Refusal) -> u8
        ensures { result ≡ number_of refusal }
    {
        match refusal {
            Refusal::WrongCount => 1,
            Refusal::UnknownPart => 2,
            Refusal::StrapOutside => 3,
            Refusal::SharedAddress => 4,
            Refusal::WrongLength => 5,
            Refusal::UnknownKind => 6,
            Refusal::WrongValue => 7,
            Refusal::Clash => 8,
            Refusal::NotWellFormed => 10,
            Refusal::ShortBuffer => 11,
            Refusal::ShortText => 19,
            Refusal::BadRecord => 20,
            Refusal::WrongSum => 21,
            Refusal::UnknownType => 22,
            Refusal::PastArray => 23,
            Refusal::NoEnd => 24,
            Refusal::NotBusy => 12,
        }
    }
}

// What checks say, as a status: 00 is done.
pub fn status_of(verdict: Result<(), Refusal>) -> u8
    ensures { result ≡ status_of verdict }
{
    match verdict {
        Ok(()) => 0,
        Err(refusal) => refusal.into(),
    }
}

// The other crates ask `is_ok`; this stays for those who use the library (`is_passed_unique`).
pub fn is_passed(verdict: Result<(), Refusal>) -> bool
    ensures { result ≡ is_ok verdict }
{
    verdict.is_ok()
}

// The answer to one event, its reply or why it was refused: status times 256 plus reply.
pub fn answer_word(answer: Result<u8, Refusal>) -> u16
    ensures { result ≡ answer_word answer }
{
    match answer {
        Ok(reply) => base::word::word_of(0, reply),
        Err(refusal) => base::word::word_of(refusal.into(), 0),
    }
}
