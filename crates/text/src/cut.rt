// Texts cut at a byte.
ghost use Rattle.std.specs.Prelude.{◌≡◌};
ghost use Rattle.text.specs.Fields.{parted};
ghost use Rattle.text.specs.Seen.{seen_halves};

// The text before and after its first b.
pub fn cut<'a>(xs: &'a [u8], b: u8) -> Option<(&'a [u8], &'a [u8])>
    ensures { seen_halves result ≡ parted b xs.now }
{
    let at = xs.iter().position(|x| *x == b)?;
    Some((&xs[..at], &xs[at + 1..]))
}
