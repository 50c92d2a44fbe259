// A pen over a lent page: it writes from the beginning on, as far as the page goes.
ghost use Rattle.std.specs.Prelude.{◌≡◌, ℤ};
ghost use Rattle.text.specs.Numeral.{numeral};
ghost use Rattle.mission.specs.Pages.{wrote};

use itoa::Buffer;

// The place is where the next byte goes: the number of bytes written, also of those past the page's end.
// Kept: a lent page and a place on it, since the page may be too short and a `Vec` would allocate.
#[derive(Drop)]
pub(crate) struct Pen<'a> {
    page: &'a mut [u8],
    pub(crate) place: usize,
}

impl<'a> Pen<'a> {
    pub(crate) fn over(page: &'a mut [u8]) -> Pen<'a>
        ensures page { result.page ≡ page.entry }
        ensures place { result.place ≡ 0 }
    {
        Pen { page, place: 0 }
    }

    // The place saturates, so that no caller bounds it: no page has a byte there.
    pub(crate) fn put(&mut self, text: &str)
        ensures { self.new ≡ wrote self.old text.now }
    {
        let end = self.place.saturating_add(text.len());
        let from = self.place.min(self.page.len());
        let to = end.min(self.page.len());
        self.page[from..to].copy_from_slice(&text.as_bytes()[..to - from]);
        self.place = end;
    }

    // A label, and a number behind it.
    // Kept, and no `write!` of a `Display`: std does not say when that fails, and a pen never does.
    pub(crate) fn number<N: Into<i32>>(&mut self, label: &str, n: N)
        ensures { (z : ℤ) × N.converts n z × (self.new ≡ wrote (wrote self.old label.now) (numeral z)) }
    {
        self.put(label);
        self.put(Buffer::new().format(n.into()));
    }
}
