// Bytes by their addresses.
ghost use Rattle.ap_image.specs.Cells.{CellsState, Shows};

use ap_files::Failed;

/// What memory shows at addresses: that of a plan over a file, or of an input over its loads.
///
/// A byte may have to be read from a file. Then a read that fails raises a count, which its record of the specs names, and
/// changes nothing else. Where the bytes are told, the specs say which one stands at each address.
pub trait Cells {
    /// The bytes, where they are told, how often reading one failed, and what else the files that are read mean.
    ghost state: { Self → CellsState };

    /// The byte at an address, or None where there is none.
    ///
    /// `Failed`: it could not be read.
    fn byte(&mut self, a: u64) -> Result<Option<u8>, Failed>
        ensures { Shows (state self.old) (state self.new) a result };
}
