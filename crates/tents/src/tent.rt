// A peak with the bounds within which a variation applies.
ghost use Rattle.std.specs.Prelude.{◌≡◌, not};
ghost use Rattle.format.specs.Account.{implied_start, implied_end, tent};
ghost use Rattle.format.specs.Glyphs.{bounds_implied};
ghost use Rattle.tents.specs.Tents.{tent_of, given, given_of};
ghost use Rattle.std.specs.Cmp.Rules.{comparing};
ghost use Rattle.std.proofs.Common.{rules};

// Where a variation begins to apply on an axis, and where it ceases, in units of 1/16384.
#[derive(Clone, Copy, PartialEq, Eq, Debug)]
pub struct Bounds {
    pub min: i16,
    pub max: i16,
}

// The peak, where the variation applies in full, with bounds of its own or with those that it implies.
#[derive(Clone, Copy, Debug)]
pub struct Tent {
    pub peak: i16,
    pub bounds: Option<Bounds>,
}

impl Bounds {
    // The bounds of a peak that comes without: from 0 to the peak.
    pub fn implied(peak: i16) -> Bounds
        ensures min { result.min ≡ implied_start peak }
        ensures max { result.max ≡ implied_end peak }
    {
        Bounds {
            min: peak.min(0),
            max: peak.max(0),
        }
    }
}

// Tents are equal where they mean the same: one without bounds has those that its peak implies.
impl PartialEq for Tent {
    ghost use Rattle.tents.specs.Tents.{same_tent};

    ghost eq = { same_tent };

    ghost laws = { Prim.search (comparing, rules) };

    fn eq(&self, other: &Tent) -> bool {
        self.peak == other.peak && self.extent() == other.extent()
    }
}

impl Eq for Tent {
    ghost laws = { Prim.search (comparing, rules) };
}

impl Tent {
    // A tent of a peak with its bounds, or with those that are implied.
    pub fn new(peak: i16, intermediate: Option<(i16, i16)>) -> Tent
        ensures handed_in { given result ≡ given_of peak intermediate }
        ensures means { tent_of result ≡ tent (given_of peak intermediate) }
    {
        Tent {
            peak,
            bounds: intermediate.map(|(min, max)| Bounds { min, max }),
        }
    }

    // The bounds handed in, or those that the peak implies.
    pub fn extent(&self) -> Bounds
        ensures min { result.min ≡ (tent_of self.now).start }
        ensures max { result.max ≡ (tent_of self.now).end }
    {
        self.bounds.unwrap_or(Bounds::implied(self.peak))
    }

    // Whether the bounds have to be stored: they are not those implied by the peak.
    pub fn requires_intermediate(&self) -> bool
        ensures { result ≡ not (bounds_implied (tent_of self.now)) }
    {
        self.extent() != Bounds::implied(self.peak)
    }
}
