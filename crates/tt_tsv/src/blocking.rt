ghost use Rattle.std.specs.Prelude.{◌≡◌};
ghost use Rattle.tt_tsv.specs.Arrays.{array_of};
ghost use Rattle.tt_tsv.specs.Blocking.{holder, holder_in};

use crate::Arrays;
use crate::words::array_in;
use tt_calls::TsvCall;
use tt_text::Text;

impl Arrays {
    /// The thread that holds the array that a call is on (tsv(n), tsv::lock); None if nobody does, and for a call on no
    /// array. It takes no memory.
    pub fn holder(&self, call: &TsvCall) -> Option<u32>
        ensures holder { result ≡ holder self.now call.now }
    {
        match call {
            TsvCall::Hold { array } | TsvCall::Unhold { array } => self.holder_of(array),
            TsvCall::Run { words } => match array_in(words.as_slice()) {
                Some(array) => self.holder_of(array),
                None => None,
            },
        }
    }

    fn holder_of(&self, name: &Text) -> Option<u32>
        ensures { result ≡ holder_in (array_of self.now name.now) }
    {
        match self.find(name) {
            Some(array) => array.holder,
            None => None,
        }
    }
}
