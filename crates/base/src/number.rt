// Numbers.
ghost use Rattle.std.specs.Prelude.{◌≡◌};
ghost use Rattle.base.specs.Least.{least};

// The smaller of two. The other crates write `min`; this stays for those who use the library (`least_unique`).
pub fn least(a: usize, b: usize) -> usize
    ensures { result ≡ least a b }
{
    a.min(b)
}
