// A byte of a share of a store.
ghost use Rattle.std.specs.Prelude.{◌≡◌, set};

// Past the share there is nothing to store to. By index: after `get_mut` a proof knows no more of a slice than its length.
pub fn put(byte: u8, at: usize, share: &mut [u8])
    ensures { share.new ≡ set share.old at byte }
{
    if at < share.len() {
        share[at] = byte;
    }
}
