ghost use Rattle.std.specs.Prelude.{◌≡◌};
ghost use Rattle.std.specs.Ordering.{partial_lt};
ghost use Rattle.protocol.specs.Kind.{Kind, Lawful, value_of};

/// A kind of value that stations vote on.
pub trait Value: Copy {
    ghost kind: { Kind Self };

    // `From` and `TryFrom` would be no plainer: each has a ghost member of its own for what `kind` says of both ways.

    /// The word that stands for this value.
    fn word(self) -> u64
        ensures { result ≡ kind.word self };

    /// The value that a word stands for, if any.
    fn read(word: u64) -> Option<Self>
        ensures { result ≡ kind.reads word };

    /// The value that a word stands for, or rest.
    fn read_or_rest(word: u64) -> Self
        ensures { result ≡ value_of kind word }
    {
        Self::read(word).unwrap_or(Self::rest())
    }

    /// Whether this value comes before the other; of two different ones exactly one does.
    fn less(self, other: Self) -> bool
        ensures { result ≡ kind.less self other };

    /// The least value, which stands where nothing was entered or settled.
    fn rest() -> Self
        ensures { result ≡ kind.rest };

    // A member below the last `fn` is a law: each implementation proves it, and generic code may rest on it. Further up
    // it would be data, of which nothing is known.
    ghost lawful: { Lawful kind };
}

/// A kind of value that Rust compares as the kind orders it. No vote asks for that: votes compare by `less`.
pub trait OrderedValue: Value + Ord {
    /// Whether this value comes before the other, by Rust's `<`.
    final fn before(self, other: Self) -> bool
        ensures { result ≡ Self.kind.less self other }
    {
        self < other
    }

    // the order of the kind is the one by which Rust compares
    ghost ordered: { (a b : Self) → partial_lt Self.partial_cmp a b ≡ Self.kind.less a b };
}

/// The laws of a kind of value, which every implementation of `Value` has proved.
pub fn lawful_kind<V: Value>()
    ensures { Lawful V.Value.kind }
{}
