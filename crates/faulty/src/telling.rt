// What a failure tells.
ghost use Rattle.std.specs.Prelude.{◌≡◌};
ghost use Rattle.faulty.specs.Told.{told_of};

use std::io::ErrorKind;
use streams::Failure;

/// What went wrong: whether it was a read, and the kind of its error.
pub fn told(failure: &Failure) -> (bool, ErrorKind)
    ensures { result ≡ told_of failure.now }
{
    match failure {
        Failure::Reading(error) => (true, error.kind()),
        Failure::Writing(error) => (false, error.kind()),
    }
}
