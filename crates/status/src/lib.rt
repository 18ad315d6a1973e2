// How a run ended. Where several apply, the greatest number counts.
#![tactic(auto)]

ghost use Rattle.std.specs.Prelude.{◌≡◌};
ghost use Rattle.status.specs.Status.{number_of, greatest};

// In the order of their numbers.
#[derive(Clone, Copy, Debug, PartialEq, Eq, PartialOrd, Ord)]
pub enum Status {
    // All was answered.
    Answered,
    // A malformed line; a refused board, image, chip or page.
    Refused,
    // A word on the command line that is none.
    NoWord,
    // Input or output failed.
    Broken,
}

impl From<Status> for u8 {
    ghost from_gives = { λ status n. n ≡ number_of status };

    fn from(status: Status) -> u8
        ensures { result ≡ number_of status }
    {
        match status {
            Status::Answered => 0,
            Status::Refused => 1,
            Status::NoWord => 2,
            Status::Broken => 3,
        }
    }
}

// How a run ends where several statuses apply: `bench` and `errands` ask this (`greatest_unique`).
pub fn greatest(a: Status, b: Status) -> Status
    ensures { result ≡ greatest a b }
{
    a.max(b)
}
