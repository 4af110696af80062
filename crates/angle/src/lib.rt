// Rotation angles and phases.
#![tactic(auto)]

ghost use Rattle.std.specs.Prelude.{◌≡◌, ◌%◌};
ghost use Rattle.angle.specs.Angle.{signed_angle, eighths_of, add_angles, neg_angle, add_phases, neg_phase};

use std::ops::{Add, Neg};

// An angle counts eighths, modulo 8.
#[derive(Clone, Copy, PartialEq, Eq)]
pub struct PauliAngle(pub u8);

// A phase counts quarter turns, modulo 4: a power of i.
// Not one type with `PauliAngle`: the two are told apart by name, and only the modulus is alike.
#[derive(Clone, Copy, PartialEq, Eq)]
pub struct Phase(pub u8);

// The signed angle that each remainder stands for.
const SIGNED: [i8; 8] = [0, 1, 2, 3, 4, -3, -2, -1];

impl PauliAngle {
    // The remainder by 8, from 0 to 7.
    pub fn new(eighths: i32) -> PauliAngle
        ensures { result.0 ≡ eighths_of eighths }
    {
        PauliAngle(eighths.rem_euclid(8) as u8)
    }

    pub fn signed_eighths(self) -> i8
        ensures { result ≡ signed_angle (self.0 % 8) }
    {
        SIGNED[(self.0 % 8) as usize]
    }
}

impl Add for PauliAngle {
    type Output = PauliAngle;

    ghost add_gives = { λ a b r. r.0 ≡ add_angles a.0 b.0 };

    fn add(self, rhs: PauliAngle) -> PauliAngle {
        PauliAngle(((self.0 as u32 + rhs.0 as u32) % 8) as u8)
    }
}

impl Neg for PauliAngle {
    type Output = PauliAngle;

    ghost neg_gives = { λ a r. r.0 ≡ neg_angle a.0 };

    fn neg(self) -> PauliAngle {
        PauliAngle((8 - self.0 % 8) % 8)
    }
}

impl Add for Phase {
    type Output = Phase;

    ghost add_gives = { λ a b r. r.0 ≡ add_phases a.0 b.0 };

    fn add(self, rhs: Phase) -> Phase {
        Phase(((self.0 as u32 + rhs.0 as u32) % 4) as u8)
    }
}

impl Neg for Phase {
    type Output = Phase;

    ghost neg_gives = { λ a r. r.0 ≡ neg_phase a.0 };

    fn neg(self) -> Phase {
        Phase((4 - self.0 % 4) % 4)
    }
}

// The signed angle of a number of eighths.
pub fn normalize(k: i32) -> i8
    ensures { result ≡ signed_angle (eighths_of k) }
{
    PauliAngle::new(k).signed_eighths()
}
