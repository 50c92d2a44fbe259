ghost use Rattle.std.specs.Prelude.{◌≡◌};
ghost use Rattle.booth.specs.Commands.{verb_named};

// What the program is asked to do.
#[derive(Clone, Copy, PartialEq, Eq, Debug)]
pub enum Verb {
    Check,
    Demo,
    Help,
}

// The verb that a word names.
// Kept a function: all it can say of another word is None, and a TryFrom would need an error type.
pub fn verb_of(word: &[u8]) -> Option<Verb>
    ensures { result ≡ verb_named word.now }
{
    match word {
        b"check" => Some(Verb::Check),
        b"demo" => Some(Verb::Demo),
        b"help" => Some(Verb::Help),
        _ => None,
    }
}
