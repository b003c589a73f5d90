//! Values of the code's types are in their ranges.

ghost use Rattle.hex.specs.Hex.{IsBytes};
ghost use Rattle.journal_text.specs.Fits.{FitsName};

use dns_message::Name;

/// The law that bytes are numbers below 256.
pub(crate) fn bytes_fit(bytes: &[u8])
    ensures { IsBytes bytes.now }
{}

/// The law that a name is one, of bytes.
pub(crate) fn name_fits(name: &Name)
    ensures { FitsName name.now }
{
    bytes_fit(name.as_wire());
}
