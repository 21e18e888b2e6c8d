// A link to an item or to none, in the room of one number: an Option of a number takes two.
ghost use Rattle.std.specs.Prelude.{◌≡◌, ◌<◌, Some, IfSome};
ghost use Rattle.links.specs.Links.{linked, no_link, link_of};

#[derive(Clone, Copy, PartialEq, Eq, Debug)]
pub struct Link {
    // 1 more than the item, or 0
    code: usize,
}

impl Link {
    // The link to no item.
    pub const NONE: Link = Link { code: 0 };

    // The link to an item, or to none; to none also from the largest number, which is the number of no cell.
    #[inline]
    pub fn of(item: Option<usize>) -> Link
        ensures item { IfSome item (λ i. i < usize.MAX) → result ≡ link_of item }
        ensures last { item ≡ Some usize.MAX → result ≡ no_link }
    {
        Link {
            code: item.map_or(0, |i| i.wrapping_add(1)),
        }
    }

    // The item that it leads to.
    #[inline]
    pub fn item(self) -> Option<usize>
        ensures { result ≡ linked self }
    {
        self.code.checked_sub(1)
    }
}
