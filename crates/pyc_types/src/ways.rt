//! The two ways between two types.

ghost use Rattle.std.specs.Prelude.{◌≡◌, true, false};
ghost use Rattle.pyc_types.specs.Pairs.{both, meet, choose, gather, either};
ghost use Rattle.pyc_types.specs.Ways.{invariant};

/// Whether a first type is assignable to a second, and the second to the first.
#[derive(Clone, Copy, Debug, PartialEq, Eq)]
pub(crate) struct Ways {
    pub(crate) there: bool,
    pub(crate) back: bool,
}

impl Ways {
    /// Both ways.
    pub(crate) fn each() -> Ways
        ensures { result ≡ both true true }
    {
        Ways {
            there: true,
            back: true,
        }
    }

    /// No way.
    pub(crate) fn neither() -> Ways
        ensures { result ≡ both false false }
    {
        Ways {
            there: false,
            back: false,
        }
    }

    /// Where these ways go and the others too.
    pub(crate) fn meet(self, other: Ways) -> Ways
        ensures { result ≡ meet self other }
    {
        Ways {
            there: self.there && other.there,
            back: self.back && other.back,
        }
    }

    /// There where either goes there, back where both go back: a type against the items of a union.
    pub(crate) fn choose(self, other: Ways) -> Ways
        ensures { result ≡ choose self other }
    {
        Ways {
            there: self.there || other.there,
            back: self.back && other.back,
        }
    }

    /// There where both go there, back where either goes back: the items of a union against a type.
    pub(crate) fn gather(self, other: Ways) -> Ways
        ensures { result ≡ gather self other }
    {
        Ways {
            there: self.there && other.there,
            back: self.back || other.back,
        }
    }

    /// Where these ways go or the others do.
    pub(crate) fn either(self, other: Ways) -> Ways
        ensures { result ≡ either self other }
    {
        Ways {
            there: self.there || other.there,
            back: self.back || other.back,
        }
    }

    /// Both ways where both are there, else none.
    pub(crate) fn invariant(self) -> Ways
        ensures { result ≡ invariant self }
    {
        let goes = self.there && self.back;
        Ways {
            there: goes,
            back: goes,
        }
    }
}
