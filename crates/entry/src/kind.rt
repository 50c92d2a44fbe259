// What every kind of entry does, so that a condition is written once for all of them.
ghost use Rattle.std.specs.Prelude.{◌≡◌, Bool, Option as Perhaps};

pub trait Entry: Copy {
    // What an entry is held to.
    type Threshold: Copy;
    // What a mark brings to an entry of this kind.
    type Share: Copy;

    ghost meeting: { Self → Self.Threshold → Bool };
    // Absent where the entry is full for the share.
    ghost taking: { Self → Self.Share → Perhaps Self };

    ghost making: { Self.Share → Self };

    // Whether the entry meets a threshold.
    fn meets(self, threshold: Self::Threshold) -> bool
        ensures { result ≡ meeting self threshold };

    // The entry with a share taken; `None` where it is full for it.
    fn take(self, share: Self::Share) -> Option<Self>
        ensures { result ≡ taking self share };

    // The entry that a first share makes.
    fn first(share: Self::Share) -> Self
        ensures { result ≡ making share };
}
