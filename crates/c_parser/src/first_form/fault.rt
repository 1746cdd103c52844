//! Why reading stops.
use std::alloc::{AllocError, AllocFailed};

#[derive(Debug, Drop)]
pub enum Fault {
    /// The words are not those of a program of the form.
    NotFirstForm,
    Memory(AllocError),
}

impl From<AllocError> for Fault {
    ghost use Rattle.std.specs.Prelude.{◌≡◌};
    ghost use Rattle.c_parser.specs.declared.first_form.fault.Fault.TheVariants.{Memory};

    ghost from_gives = { λ cause fault. fault ≡ Memory cause };

    fn from(cause: AllocError) -> Fault {
        Fault::Memory(cause)
    }
}

impl<T: Drop> From<AllocFailed<T>> for Fault {
    ghost use Rattle.std.specs.Prelude.{◌≡◌, alloc_error};
    ghost use Rattle.c_parser.specs.declared.first_form.fault.Fault.TheVariants.{Memory};

    ghost from_gives = { λ _ fault. fault ≡ Memory alloc_error };

    fn from(failed: AllocFailed<T>) -> Fault {
        Fault::Memory(AllocError::from(failed))
    }
}
