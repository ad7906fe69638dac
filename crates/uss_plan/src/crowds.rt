ghost use Rattle.std.specs.Prelude.{◌≡◌, ◌≤◌, ◌↔◌, IsOk, IfErr};
ghost use Rattle.uss_intent.specs.Limits.{most_ovns};

use uss_intent::MOST_OVNS;

/// Why nothing is planned.
#[derive(Clone, Copy, Debug, PartialEq, Eq)]
pub enum PlanRefusal {
    /// 171: more than 1,024 references of other flights, so many, share with the area.
    Crowded(usize),
}

impl PlanRefusal {
    /// The number under which the refusal is printed, 171.
    pub fn number(&self) -> u16
        ensures { result ≡ 171 }
    {
        match self {
            PlanRefusal::Crowded(_) => 171,
        }
    }
}

/// Whether a plan can look at so many references of other flights: at most 1,024. Takes no memory.
pub fn crowd(count: usize) -> Result<(), PlanRefusal>
    ensures accepted { IsOk result ↔ (count ≤ most_ovns) }
    ensures refused { IfErr result (λ e. e ≡ PlanRefusal.Crowded count) }
{
    if count > MOST_OVNS {
        return Err(PlanRefusal::Crowded(count));
    }
    Ok(())
}
