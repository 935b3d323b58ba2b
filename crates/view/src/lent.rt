// A lent list, and how many entries it shows: none where refusals 2 to 6 say no.
ghost use Rattle.std.specs.Prelude.{◌≡◌};
ghost use Rattle.view.specs.Serving.{shown};

#[derive(Clone, Copy)]
pub struct View<'a> {
    pub(crate) list: &'a [u8],
    pub(crate) count: usize,
    ghost shows: { count ≡ shown list.now },
}
