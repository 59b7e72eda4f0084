// Amounts in millionths of a unit.
ghost use Rattle.std.specs.Prelude.{◌≡◌, ◌≤◌, ◌*ℤ◌, unsigned_abs};
ghost use Rattle.method.specs.Limits.{one_unit};

// An amount in millionths of a currency unit.
#[derive(Clone, Copy)]
pub struct Millionths(pub i64);

impl Millionths {
    // One whole unit.
    pub const ONE_UNIT: Millionths = Millionths(1_000_000);

    // Whole units, as millionths.
    pub fn from_units(units: i64) -> Millionths
        requires { unsigned_abs units ≤ 9_223_372_036_854 }
        ensures { result.0 ≡ units *ℤ one_unit }
    {
        Millionths(units * Self::ONE_UNIT.0)
    }
}
