ghost use Rattle.std.specs.Prelude.{◌≡◌, ◌+◌, ◌<◌, ◌^◌};
ghost use Rattle.exact_parts.specs.Taking.{end_of, moved};

/// What stands at the beginning of some bytes.
#[derive(Debug, PartialEq, Eq, Drop)]
pub enum Taken<T> {
    /// A part of `length` bytes; others may follow.
    Got { value: T, length: usize },
    /// The beginning of a part: more bytes can make it whole.
    NeedMore,
    /// No part. The byte at this place is the first that continues none.
    Bad { at: usize },
}

/// What was taken after so many bytes, told from the first of these.
pub fn after<T>(length: usize, taken: Taken<T>) -> Taken<T>
    requires { length + end_of taken < 2 ^ 64 }
    ensures { result ≡ moved length taken }
{
    match taken {
        Taken::Got {
            value,
            length: more,
        } => Taken::Got {
            value,
            length: length + more,
        },
        Taken::NeedMore => Taken::NeedMore,
        Taken::Bad { at } => Taken::Bad { at: length + at },
    }
}
