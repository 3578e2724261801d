ghost use Rattle.std.specs.Prelude.{◌≡◌, ◌≢◌, Option, IfErr, IfOk, OnOk};
ghost use Rattle.std.specs.IoError.{error_kind};
ghost use Rattle.tt_devices.specs.Names.{HasName, HoldsNamed, KeepsOthers, Names, StartsEmpty, Tells};

use crate::{Failed, Sink, Source};
use std::io;
use std::io::ErrorKind;

/// The calls by which files are read and made anew.
pub trait Disk {
    /// What an open file is read from.
    type Reader: Source + Drop;

    /// What a new file's bytes are put into.
    type Writer: Sink + Drop;

    /// The bytes under each name, if the disk shows them.
    ghost map: { Self → Option Names };

    /// Opens the file of this name, to be read from its first byte.
    ///
    /// The error is of the kind `NotFound` exactly if the name has no file, if the disk shows its map.
    fn open(&mut self, name: &str) -> io::Result<Self::Reader>
        ensures opened { IfOk result (λ reader. HoldsNamed (map self.old) name.now (Self.Reader.held reader)) }
        ensures missing { IfErr result (λ error.
            error_kind error ≡ ErrorKind.NotFound → Tells (map self.old) name.now None) }
        ensures not_missing { IfErr result (λ error.
            error_kind error ≢ ErrorKind.NotFound → HasName (map self.old) name.now) }
        ensures same { map self.new ≡ map self.old };

    /// Makes the file of this name anew, with no bytes.
    ///
    /// After an error the bytes under that name alone are unknown.
    fn create(&mut self, name: &str) -> io::Result<Self::Writer>
        ensures empty { IfOk result (λ writer. StartsEmpty (map self.old) (Self.Writer.got writer)) }
        ensures others { KeepsOthers (map self.old) (map self.new) name.now };

    /// Closes the file that was made under this name: it has the bytes that were put into it.
    ///
    /// After an error the bytes under that name alone are unknown.
    fn close(&mut self, name: &str, writer: Self::Writer) -> Result<(), Failed>
        ensures closed { OnOk result (HoldsNamed (map self.new) name.now (Self.Writer.got writer)) }
        ensures others { KeepsOthers (map self.old) (map self.new) name.now };
}
