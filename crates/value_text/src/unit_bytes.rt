//! UTF-16 units as bytes.
ghost use Rattle.std.specs.Prelude.{◌≡◌, IfOk};
ghost use Rattle.value_text.specs.UnitBytes.{units_bytes, units_in};

use mapi_values::Units;
use pst_base::Bytes;
use std::alloc::{AllocError, Global};

/// The bytes of units, two for each, the low one first.
pub fn bytes_of_units(alloc: Global, units: &Units) -> Result<Bytes, AllocError>
    ensures { IfOk result (λ bytes. bytes ≡ units_bytes units.now) }
{
    let mut bytes = Vec::new(alloc);
    for unit in units.as_slice() {
        bytes.extend_from_slice(&unit.to_le_bytes())?;
    }
    Ok(Bytes::from_vec(bytes))
}

/// The units that bytes hold. A last odd byte is left out.
pub fn units_of_bytes(alloc: Global, bytes: &[u8]) -> Result<Units, AllocError>
    ensures { IfOk result (λ units. units ≡ units_in bytes.now) }
{
    let mut units = Vec::new(alloc);
    let mut rest = bytes;
    while let [low, high, after @ ..] = rest {
        units.push(u16::from(*low) + 256 * u16::from(*high))?;
        rest = after;
    }
    Ok(Units::from_vec(units))
}
