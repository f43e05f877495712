//! The fields of 256 bytes that may be a control record, each at its place.

ghost use Rattle.std.specs.Prelude.{◌≡◌, ◌↔◌, Option, Some, IfSome, IsTrue};
ghost use Rattle.xrf_ctl.specs.Places.{part, number_at, zeros};
ghost use Rattle.xrf_ctl.specs.declared.parts.Owner.{Owner};
ghost use Rattle.xrf_ctl.specs.declared.parts.Alt.{Alt};
ghost use Rattle.xrf_ctl.specs.declared.parts.Taking.{Taking};
ghost use Rattle.xrf_ctl.specs.declared.fault.Field.TheVariants as field;
ghost use Rattle.xrf_ctl.specs.Faults.{last_at, HasOwner, HasAlt, HasTaking, Holds};

use crate::fields::{read_alt, read_owner, read_taking};
use crate::parts::{Alt, Owner, Taking};
use crate::places::{u16_at, u32_at};
use xrf_base::{Inc, is_zero_from};

/// What stands at the head of a control record.
pub const EYE: [u8; 4] = *b"XCTL";

pub fn has_eye(bytes: &[u8; 256]) -> bool
    ensures { IsTrue result ↔ Holds bytes.now field.Eye }
{
    &bytes[..4] == EYE.as_slice()
}

pub fn format_of(bytes: &[u8; 256]) -> u16
    ensures { result ≡ number_at bytes.now 4 2 }
{
    u16_at(bytes, 4)
}

pub fn last_of(bytes: &[u8; 256]) -> Inc
    ensures { result ≡ last_at bytes.now }
{
    u32_at(bytes, 8)
}

/// An incarnation was given, or no owner's flag stands in the record.
pub fn has_last(bytes: &[u8; 256]) -> bool
    ensures { IsTrue result ↔ Holds bytes.now field.Last }
{
    last_of(bytes) != 0 || bytes[12] != 1
}

pub fn owner_of(bytes: &[u8; 256]) -> Option<Option<Owner>>
    ensures found { IfSome result (HasOwner bytes.now) }
    ensures only { (o : Option Owner) → HasOwner bytes.now o → result ≡ Some o }
{
    read_owner(&bytes[12..20], last_of(bytes))
}

pub fn alt_of(bytes: &[u8; 256], owner: Option<Owner>) -> Option<Option<Alt>>
    ensures found { IfSome result (HasAlt bytes.now owner) }
    ensures only { (a : Option Alt) → HasAlt bytes.now owner a → result ≡ Some a }
{
    read_alt(&bytes[20..28], last_of(bytes), owner)
}

pub fn taking_of(bytes: &[u8; 256], alt: Option<Alt>) -> Option<Option<Taking>>
    ensures found { IfSome result (HasTaking bytes.now alt) }
    ensures only { (t : Option Taking) → HasTaking bytes.now alt t → result ≡ Some t }
{
    read_taking(&bytes[28..36], last_of(bytes), alt)
}

fn is_zero_behind_fields(bytes: &[u8; 256]) -> bool
    ensures { IsTrue result ↔ (part bytes.now 36 220 ≡ zeros 220) }
{
    is_zero_from(bytes, 36)
}

/// Nothing stands where no field is.
pub fn is_zero_elsewhere(bytes: &[u8; 256]) -> bool
    ensures { IsTrue result ↔ Holds bytes.now field.Reserved }
{
    &bytes[6..8] == [0; 2].as_slice() && is_zero_behind_fields(bytes)
}
