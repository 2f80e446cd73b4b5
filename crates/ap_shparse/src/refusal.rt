use std::alloc::AllocError;

/// Why a part of a text isn't read.
#[derive(Clone, Copy)]
pub(crate) enum Refusal {
    /// The grammar has no such part here.
    Outside,
    NoMemory,
}

impl From<AllocError> for Refusal {
    ghost use Rattle.std.specs.Prelude.{◌≡◌};
    ghost use Rattle.ap_shparse.specs.declared.refusal.Refusal.TheVariants.{NoMemory};

    ghost from_gives = { λ _ e. e ≡ NoMemory };

    fn from(_error: AllocError) -> Refusal {
        Refusal::NoMemory
    }
}
