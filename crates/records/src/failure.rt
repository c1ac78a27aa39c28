// Why a call gave nothing.
ghost use Rattle.std.specs.Prelude.{◌≡◌, IfErr, IfOk};
ghost use Rattle.records.specs.declared.failure.Failure.TheVariants.{Refused, NoMemory};
ghost use Rattle.records.specs.Failure.{IsNoMemory};

use std::alloc::{AllocError, AllocFailed};

// What was handed over is refused, and why; or memory ran out.
#[derive(Drop)]
pub enum Failure<E> {
    Refused(E),
    NoMemory(AllocError),
}

impl<E> Failure<E> {
    // What is refused, unless memory ran out.
    pub fn refused(self) -> Result<E, AllocError>
        ensures ok { IfOk result (λ why. self ≡ Refused why) }
        ensures no_memory { IfErr result (λ error. self ≡ NoMemory error) }
    {
        match self {
            Failure::Refused(why) => Ok(why),
            Failure::NoMemory(error) => Err(error),
        }
    }
}

impl<E> From<AllocError> for Failure<E> {
    ghost from_gives = { λ _ failure. IsNoMemory failure };

    fn from(error: AllocError) -> Failure<E> {
        Failure::NoMemory(error)
    }
}

impl<E, T: Drop> From<AllocFailed<T>> for Failure<E> {
    ghost from_gives = { λ _ failure. IsNoMemory failure };

    fn from(error: AllocFailed<T>) -> Failure<E> {
        Failure::NoMemory(AllocError::from(error))
    }
}
