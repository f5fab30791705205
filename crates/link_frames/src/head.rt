ghost use Rattle.std.specs.Prelude.{◌≡◌};
ghost use Rattle.link_frames.specs.Head.{spelling};

/// The numbers that a frame begins with, but for the one that is always 0.
#[derive(Clone, Copy, Debug, PartialEq, Eq)]
pub(crate) struct Head {
    pub kind: u8,
    /// the type of the variable, or the status
    pub detail: u8,
    pub flags: u8,
    /// the value reference, the qualifier of an interval, or the length of a state
    pub reference: u32,
    pub first: u64,
    pub last: u64,
}

/// The bytes of the numbers.
#[tactic(auto, unfolding(crate::specs::Head::spelling))]
pub(crate) fn spell(head: Head) -> [u8; 24]
    ensures { result ≡ spelling head }
{
    let [r0, r1, r2, r3] = head.reference.to_be_bytes();
    let [a0, a1, a2, a3, a4, a5, a6, a7] = head.first.to_be_bytes();
    let [b0, b1, b2, b3, b4, b5, b6, b7] = head.last.to_be_bytes();
    [
        head.kind,
        head.detail,
        head.flags,
        0,
        r0,
        r1,
        r2,
        r3,
        a0,
        a1,
        a2,
        a3,
        a4,
        a5,
        a6,
        a7,
        b0,
        b1,
        b2,
        b3,
        b4,
        b5,
        b6,
        b7,
    ]
}
