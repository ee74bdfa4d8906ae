//! The words that the program is called with.
ghost use Rattle.std.specs.Prelude.{◌≡◌, ◌⊎◌, ℕ, List, Option, IfErr, IfOk, map, string_bytes};
ghost use Rattle.np.specs.Words.{AreBehindTheName, AreTheWords, IsNoText};

use np_command::Failure;
use std::rt::Env;
use std::{env, io};

/// What knows the words that the program is called with. Contracts see these, where it tells them.
pub(crate) trait Call {
    /// The words, the name of the program first. `None`: untold.
    ghost told: { Self → Option (List (List ℕ)) };

    /// The words, the name of the program first. It fails where memory is short, and where a word is not UTF-8.
    fn words(&self) -> io::Result<Vec<String>>
        ensures { IfOk result (λ words. AreTheWords (told self.now) (map string_bytes words.items)) };
}

/// The call by the system. The kit does not tell its words.
#[derive(Drop)]
pub(crate) struct RealCall<'a, R>(pub(crate) &'a R);

impl<'a, R: Env + AllocGlobal> Call for RealCall<'a, R> {
    ghost use Rattle.std.specs.Prelude.{None};

    ghost told = { λ s. None };

    fn words(&self) -> io::Result<Vec<String>> {
        Ok(env::args(self.0)?.collect(self.0.alloc())?)
    }
}

/// The words behind the name of the program, or why there are none: memory is short, or one of them is not UTF-8, and so they
/// ask for nothing.
pub(crate) fn words_of<C: Call>(call: &C) -> Result<Vec<String>, Failure>
    ensures words { IfOk result (λ words. AreBehindTheName (C.told call.now) (map string_bytes words.items)) }
    ensures failure { IfErr result IsNoText }
{
    match call.words() {
        Ok(mut words) => {
            if !words.is_empty() {
                words.remove(0);
            }
            Ok(words)
        }
        Err(error) => Err(failure_of(&error)),
    }
}

// A word that is no text asks for nothing.
fn failure_of(error: &io::Error) -> Failure
    ensures { IsNoText result }
{
    if error.kind() == io::ErrorKind::OutOfMemory {
        Failure::NoMemory
    } else {
        Failure::Usage
    }
}
