//! Combinators for results of consecutive reads (as in the module `sequence` of the crate `nom`).
ghost use Rattle.std.specs.Prelude.{◌≡◌};
ghost use Rattle.std.specs.Result.{result_map_both};

/// The pair of both results, if the second is a success (documentation of `nom`, `pair`).
pub fn pair<T: Drop, U: Drop, E: Drop>(first: T, second: Result<U, E>) -> Result<(T, U), E>
    ensures { result ≡ result_map_both (λ second. (first, second)) (λ error. error) second }
{
    match second {
        Ok(second) => Ok((first, second)),
        Err(error) => Err(error),
    }
}

/// The first result, if what ends it was read (documentation of `nom`, `terminated`).
pub fn terminated<T: Drop, U: Drop, E: Drop>(first: T, end: Result<U, E>) -> Result<T, E>
    ensures { result ≡ result_map_both (λ _. first) (λ error. error) end }
{
    match end {
        Ok(_) => Ok(first),
        Err(error) => Err(error),
    }
}

/// The success or error of a result, without its value.
pub fn unit<T: Drop, E: Drop>(read: Result<T, E>) -> Result<(), E>
    ensures { result ≡ result_map_both (λ _. tt) (λ error. error) read }
{
    match read {
        Ok(_) => Ok(()),
        Err(error) => Err(error),
    }
}
