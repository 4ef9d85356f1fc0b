ghost use Rattle.std.specs.Prelude.{◌≡◌};
ghost use Rattle.bits.specs.Words.{pick};

// One of two values, with no branch for what follows to be proved on twice.
pub fn choose<T: Copy>(b: bool, x: T, y: T) -> T
    ensures { result ≡ pick b x y }
{
    if b { x } else { y }
}
