//! What steps of reading have in common.

ghost use Rattle.std.specs.Prelude.{◌≡◌, if◌then◌else◌, Ok, Err};
ghost use Rattle.rt_words.specs.declared.stop.Stop.TheVariants as stop;

use rt_words::Stop;

/// What was found in front of `rest`, where it passes; else it is refused where so many bytes are left.
pub fn passing<T: Drop>(
    passes: bool,
    found: T,
    rest: &[u8],
    left: usize,
) -> Result<(T, &[u8]), Stop>
    ensures { result ≡ (if passes then Ok (found, rest.entry) else Err (stop.Refused left)) }
{
    if passes {
        Ok((found, rest))
    } else {
        Err(Stop::Refused(left))
    }
}
