//! `Kind`, and wrapping to one.

ghost use Rattle.std.specs.Prelude.{◌≡◌, ◌↔◌, ℤ, ◌^◌, IsTrue};
ghost use Rattle.dc_int.specs.declared.kind.Kind.{Kind};
ghost use Rattle.dc_int.specs.Kinds.{bits_of, least_of, greatest_of, InRange, Congruent, wrapped, is_bit_count, kind_with};

/// A kind of INTEGER, named by its number of bytes.
#[derive(Clone, Copy, Debug, PartialEq, Eq)]
pub enum Kind {
    K1,
    K2,
    K4,
    K8,
}

impl Kind {
    pub fn bits(self) -> u32
        ensures { result ≡ bits_of self }
    {
        match self {
            Kind::K1 => i8::BITS,
            Kind::K2 => i16::BITS,
            Kind::K4 => i32::BITS,
            Kind::K8 => i64::BITS,
        }
    }

    /// The least number of the kind.
    pub fn least(self) -> i64
        ensures { result ≡ least_of self }
    {
        match self {
            Kind::K1 => i64::from(i8::MIN),
            Kind::K2 => i64::from(i16::MIN),
            Kind::K4 => i64::from(i32::MIN),
            Kind::K8 => i64::MIN,
        }
    }

    /// The greatest number of the kind.
    pub fn greatest(self) -> i64
        ensures { result ≡ greatest_of self }
    {
        match self {
            Kind::K1 => i64::from(i8::MAX),
            Kind::K2 => i64::from(i16::MAX),
            Kind::K4 => i64::from(i32::MAX),
            Kind::K8 => i64::MAX,
        }
    }

    /// Whether a number is in the range of the kind.
    pub fn contains(self, number: i64) -> bool
        ensures { IsTrue result ↔ InRange self number }
    {
        self.least() <= number && number <= self.greatest()
    }
}

/// Wraps a number to the range of so many bits.
pub fn wrap<const BITS: u32>(z: i128) -> i64
    requires { IsTrue (is_bit_count BITS) }
    ensures { result ≡ wrapped (kind_with BITS) z }
{
    let modulus: i128 = 1 << BITS;
    let half: i128 = 1 << (BITS - 1);
    let rest = z.rem_euclid(modulus);
    if rest < half {
        rest as i64
    } else {
        (rest - modulus) as i64
    }
}

/// Wraps a number to the range of the kind.
pub fn wrap_to(kind: Kind, z: i128) -> i64
    ensures { result ≡ wrapped kind z }
{
    match kind {
        Kind::K1 => wrap::<8>(z),
        Kind::K2 => wrap::<16>(z),
        Kind::K4 => wrap::<32>(z),
        Kind::K8 => wrap::<64>(z),
    }
}

/// The law of wrapping: the wrapped number is the one of the kind's range that is congruent to the given one.
pub fn wrapping_is_the_one_number()
    ensures in_range { (kind : Kind) (z : ℤ) → InRange kind (wrapped kind z) }
    ensures congruent { (kind : Kind) (z : ℤ) → Congruent (2 ^ bits_of kind) z (wrapped kind z) }
    ensures only { (kind : Kind) (z r : ℤ) → InRange kind r → Congruent (2 ^ bits_of kind) z r → r ≡ wrapped kind z }
{}
