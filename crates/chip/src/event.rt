// An event as one chip meets it (paper, "Events and replies").
#[derive(Clone, Copy, Debug, PartialEq, Eq)]
pub enum Event {
    Start,
    Stop,
    // The host sends a byte; with true it is the first after a Start, an address byte.
    Sent(bool, u8),
    // The host reads a byte, and with true does not acknowledge it.
    Read(bool),
    // WP low or high.
    Wp(bool),
    CycleOver,
    PowerUp,
}
