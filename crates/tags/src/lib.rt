// Tags: points of logical time, their order, and what a delay does to them.
#![tactic(auto)]

ghost use Rattle.std.specs.Prelude.{◌≡◌};
ghost use Rattle.tags.specs.Tags.{pred_of, less_of, delay_of, tag_le, tag_before, same_tag, least_of, greatest_of, words_of, told_by};

// A point of logical time: before all others, an offset with a microstep, or after all others. The order is the derived one:
// as the cases stand, finite tags by offset, then microstep.
#[derive(Clone, Copy, Debug, PartialEq, Eq, PartialOrd, Ord)]
pub enum Tag {
    Never,
    Finite(u64, u64),
    Forever,
}

// A tag as three words: class 0 NEVER, 1 finite, 2 FOREVER; offset and microstep are 0 outside class 1.
#[derive(Clone, Copy, Debug, PartialEq, Eq)]
pub struct Words {
    pub class: u64,
    pub offset: u64,
    pub microstep: u64,
}

impl Tag {
    pub const NEVER: Tag = Tag::Never;

    pub const ZERO: Tag = Tag::Finite(0, 0);

    pub const FOREVER: Tag = Tag::Forever;

    // The greatest tag before this one; the ends stay.
    pub fn predecessor(self) -> Tag
        ensures { result ≡ pred_of self }
    {
        match self {
            Tag::Finite(o, m) if m > 0 => Tag::Finite(o, m - 1),
            Tag::Finite(o, _) if o > 0 => Tag::Finite(o - 1, u64::MAX),
            Tag::Finite(_, _) => Tag::NEVER,
            _ => self,
        }
    }

    // The latest tag that, delayed by d, is at or before this one.
    pub fn subtract(self, d: u64) -> Tag
        ensures { result ≡ less_of self d }
    {
        match self {
            Tag::Finite(o, _) if d > o => Tag::NEVER,
            Tag::Finite(o, _) if d > 0 => Tag::Finite(o - d, u64::MAX),
            _ => self,
        }
    }

    // This tag seen over a delay of d; none if its offset passes 2^64-1.
    pub fn delay(self, d: u64) -> Option<Tag>
        ensures { result ≡ delay_of self d }
    {
        match self {
            Tag::Finite(o, _) if d > 0 => Some(Tag::Finite(o.checked_add(d)?, 0)),
            _ => Some(self),
        }
    }

    // Whether this tag comes first or both are the same.
    pub fn at_or_before(self, other: Tag) -> bool
        ensures { result ≡ tag_le self other }
    {
        self <= other
    }

    // Whether this tag comes first.
    pub fn before(self, other: Tag) -> bool
        ensures { result ≡ tag_before self other }
    {
        self < other
    }

    // Whether both are the same tag.
    pub fn equal(self, other: Tag) -> bool
        ensures { result ≡ same_tag self other }
    {
        self == other
    }

    // The earlier of the two.
    pub fn least(self, other: Tag) -> Tag
        ensures { result ≡ least_of self other }
    {
        self.min(other)
    }

    // The later of the two.
    pub fn greatest(self, other: Tag) -> Tag
        ensures { result ≡ greatest_of self other }
    {
        self.max(other)
    }

    // The tag as class, offset and microstep.
    pub fn words(self) -> Words
        ensures { result ≡ words_of self }
    {
        let (class, offset, microstep) = match self {
            Tag::Never => (0, 0, 0),
            Tag::Finite(o, m) => (1, o, m),
            Tag::Forever => (2, 0, 0),
        };
        Words {
            class,
            offset,
            microstep,
        }
    }

    // The tag that class, offset and microstep say. Any other class, or an offset or microstep that is not 0 outside
    // class 1, says none.
    pub fn told(class: u64, offset: u64, microstep: u64) -> Option<Tag>
        ensures { result ≡ told_by class offset microstep }
    {
        match (class, offset, microstep) {
            (0, 0, 0) => Some(Tag::NEVER),
            (1, o, m) => Some(Tag::Finite(o, m)),
            (2, 0, 0) => Some(Tag::FOREVER),
            _ => None,
        }
    }
}
