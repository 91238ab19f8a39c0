// What is refused, and why: one reason for each number that is printed, and the place it is about.
ghost use Rattle.std.specs.Prelude.{◌≡◌};
ghost use Rattle.basics.specs.Refusal.{number_of};

// Why a text (1 to 12), a call (13, 14), a fuse file (20 to 24), or a map and what is asked of it (30 to 32) is refused.
#[derive(Clone, Copy, Debug, PartialEq, Eq)]
pub enum Reason {
    Length = 1,
    Grammar = 2,
    Arithmetic = 3,
    Name = 4,
    Index = 5,
    Limit = 6,
    Assignment = 7,
    Register = 8,
    Loop = 9,
    Position = 10,
    Pins = 11,
    Products = 12,
    Memory = 13,
    Question = 14,
    Form = 20,
    Device = 21,
    Fuse = 22,
    FuseSum = 23,
    ByteSum = 24,
    Model = 30,
    Map = 31,
    Value = 32,
}

impl Reason {
    // The number that is printed.
    pub fn number(self) -> u8
        ensures { result ≡ number_of self }
    {
        self as u8
    }
}

// A refusal: why, and the byte, the field or the element's place that it is about.
#[derive(Clone, Copy, Debug, PartialEq, Eq)]
pub struct Refusal {
    pub reason: Reason,
    pub place: usize,
}

impl Refusal {
    pub fn new(reason: Reason, place: usize) -> Self
        ensures { result ≡ record { reason = reason; place = place } }
    {
        Refusal { reason, place }
    }
}
