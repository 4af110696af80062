// Why packing is refused, and what it comes to.
#![tactic(auto)]

ghost use Rattle.std.specs.Prelude.{◌≡◌, Err};
ghost use Rattle.packing_answer.specs.declared.PackingRefusal.TheVariants.{ExpansionLimit};
ghost use Rattle.packing_answer.specs.Answer.{packing_answer};

use model::{ExpansionLimit, Refusal};

// Why packing is refused.
#[derive(Clone, Copy)]
pub enum PackingRefusal {
    NonHermitianAxis,
    ExpansionLimit,
}

impl From<ExpansionLimit> for PackingRefusal {
    ghost from_gives = { λ _ e. e ≡ ExpansionLimit };

    fn from(_full: ExpansionLimit) -> PackingRefusal {
        PackingRefusal::ExpansionLimit
    }
}

// 01's refusal.
impl From<PackingRefusal> for Refusal {
    ghost from_gives = { λ p r. packing_answer (Err p) ≡ Err r };

    fn from(refusal: PackingRefusal) -> Refusal {
        match refusal {
            PackingRefusal::NonHermitianAxis => Refusal::NonHermitianAxis,
            PackingRefusal::ExpansionLimit => Refusal::ExpansionLimit,
        }
    }
}

// The packed program's axes: how many there are, and the largest word sum that was tested.
#[derive(Clone, Copy)]
pub struct PackedAxes {
    pub count: usize,
    pub peak: usize,
}
