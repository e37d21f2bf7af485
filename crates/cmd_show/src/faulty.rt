//! A faulty line of a link file.

ghost use Rattle.std.specs.Prelude.{◌≡◌, IfOk};

use echo_addr::Items;
use echo_links::LinkFault;
use std::alloc::{AllocError, Global};

/// A faulty line of a link file: its fault, which has its number, and the word that is wrong in it. Where
/// no line has the own address the number is 0, and there is no word.
#[derive(Debug, Drop)]
pub struct FaultyLine {
    pub fault: LinkFault,
    pub word: Items<u8>,
}

impl FaultyLine {
    pub(crate) fn new(
        alloc: Global,
        fault: LinkFault,
        word: &[u8],
    ) -> Result<FaultyLine, AllocError>
        ensures { IfOk result (λ line. line ≡ record { fault = fault; word = word.now }) }
    {
        Ok(FaultyLine {
            fault,
            word: Items::new(Vec::from_slice(alloc, word)?),
        })
    }
}
