ghost use Rattle.std.specs.Prelude.{◌≡◌};
ghost use Rattle.cursor.specs.Ways.{first_of};

/// A page, and the entry of it that is looked at next.
#[derive(Clone, Copy, Default)]
pub(crate) struct Place {
    pub(crate) page: u32,
    pub(crate) next: u32,
}

impl Place {
    // The first entry of a page.
    pub(crate) fn first_of(page: u32) -> Place
        ensures { result ≡ first_of page }
    {
        Place { page, next: 0 }
    }
}
