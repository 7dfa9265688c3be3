// The width of an id: how many bytes it has.
ghost use Rattle.std.specs.Prelude.{◌≡◌};
ghost use Rattle.types.specs.Width.{known};

// Whether ids can have `w` bytes.
pub fn known(w: usize) -> bool
    ensures { result ≡ known w }
{
    w == 20
}
