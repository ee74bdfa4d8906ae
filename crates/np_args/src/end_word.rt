//! The end of a connection, as a word names it.

use crate::words_fault::WordsFault;
use np_addr::{Address, read_address};
use np_base::Text;
use std::alloc::Global;

/// The end of a connection, as a word names it: a word with a `/` in it is a name, and any other is an address.
#[derive(Drop)]
pub enum EndWord {
    /// An address outside the cluster.
    At(Address),
    /// A name with its namespace.
    Named(Text),
}

impl EndWord {
    ghost use Rattle.std.specs.Prelude.{◌≡◌, Some, None, IfOk, IsErrOf};
    ghost use Rattle.np_args.specs.Values.{packet_end_of};

    /// The end that the word names. `Usage` exactly where it has no `/` and is no address.
    pub fn of(alloc: Global, word: &str) -> Result<EndWord, WordsFault>
        ensures end { IfOk result (λ end. packet_end_of word.now ≡ Some end) }
        ensures usage { IsErrOf result WordsFault.Usage → packet_end_of word.now ≡ None }
    {
        if word.contains('/') {
            return Ok(EndWord::Named(Text::of(alloc, word)?));
        }
        match read_address(word) {
            Ok(address) => Ok(EndWord::At(address)),
            Err(_) => Err(WordsFault::Usage),
        }
    }
}
