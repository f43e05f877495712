//! The three parts of a control record as eight bytes each: a flag, two codes, a zero and the
//! incarnation. A part that is not there is all zero.

ghost use Rattle.std.specs.Prelude.{◌≡◌, ◌<◌, ◌^◌, [], ◌∷◌, Option, Some, length, IfSome};
ghost use Rattle.byteorder.specs.Endian.{big_bytes};
ghost use Rattle.xrf_base.specs.declared.site.Site.{Site};
ghost use Rattle.xrf_ctl.specs.declared.parts.OwnerState.{OwnerState};
ghost use Rattle.xrf_ctl.specs.declared.parts.Cause.{Cause};
ghost use Rattle.xrf_ctl.specs.declared.parts.Owner.{Owner};
ghost use Rattle.xrf_ctl.specs.declared.parts.Alt.{Alt};
ghost use Rattle.xrf_ctl.specs.declared.parts.Taking.{Taking};
ghost use Rattle.xrf_ctl.specs.Control.{OwnerFits, AltFits, TakingFits};
ghost use Rattle.xrf_ctl.specs.Layout.{site_code, state_code, cause_code, owner_bytes, alt_bytes, taking_bytes};

use crate::parts::{Alt, Cause, Owner, OwnerState, Taking};
use crate::places::{lay_u32, u32_at};
use crate::rule::{alt_fits, owner_fits, taking_fits};
use xrf_base::{Inc, Site};

// A part that is there.
fn present(code: u8, second_code: u8, inc: Inc) -> [u8; 8]
    ensures { result ≡ 1 ∷ code ∷ second_code ∷ 0 ∷ big_bytes 4 inc }
{
    let mut field = [1, code, second_code, 0, 0, 0, 0, 0];
    lay_u32(&mut field, 4, inc);
    field
}

/// The bytes of an owner, or of none.
pub fn owner_field(owner: Option<Owner>) -> [u8; 8]
    ensures { result ≡ owner_bytes owner }
{
    match owner {
        None => [0; 8],
        Some(owner) => present(owner.site as u8, owner.state as u8, owner.inc),
    }
}

/// The bytes of an alternate, or of none.
pub fn alt_field(alt: Option<Alt>) -> [u8; 8]
    ensures { result ≡ alt_bytes alt }
{
    match alt {
        None => [0; 8],
        Some(alt) => present(alt.site as u8, 0, alt.inc),
    }
}

/// The bytes of a taking, or of none.
pub fn taking_field(taking: Option<Taking>) -> [u8; 8]
    ensures { result ≡ taking_bytes taking }
{
    match taking {
        None => [0; 8],
        Some(taking) => present(taking.cause as u8, 0, taking.inc),
    }
}

fn site_of(code: u8) -> Option<Site>
    ensures { (s : Site) → code ≡ site_code s → result ≡ Some s }
{
    match code {
        0 => Some(Site::A),
        1 => Some(Site::B),
        _ => None,
    }
}

fn state_of(code: u8) -> Option<OwnerState>
    ensures { (s : OwnerState) → code ≡ state_code s → result ≡ Some s }
{
    match code {
        0 => Some(OwnerState::Running),
        1 => Some(OwnerState::OffNormal),
        2 => Some(OwnerState::OffAbend),
        3 => Some(OwnerState::OffTakeover),
        _ => None,
    }
}

fn cause_of(code: u8) -> Option<Cause>
    ensures { (c : Cause) → code ≡ cause_code c → result ≡ Some c }
{
    match code {
        1 => Some(Cause::Lost),
        2 => Some(Cause::Abend),
        3 => Some(Cause::Shutdown),
        4 => Some(Cause::Command),
        _ => None,
    }
}

// The owner that eight bytes would spell, by some of them alone.
fn owner_like(field: &[u8]) -> Option<Option<Owner>>
    requires { length field.now ≡ 8 }
    ensures { (o : Option Owner) → field.now ≡ owner_bytes o → IfSome o (λ p. p.inc < 2 ^ 32) → result ≡ Some o }
{
    if field[0] == 0 {
        return Some(None);
    }
    let site = site_of(field[1])?;
    let state = state_of(field[2])?;
    let inc = u32_at(field, 4);
    Some(Some(Owner { inc, site, state }))
}

// The same for an alternate.
fn alt_like(field: &[u8]) -> Option<Option<Alt>>
    requires { length field.now ≡ 8 }
    ensures { (a : Option Alt) → field.now ≡ alt_bytes a → IfSome a (λ p. p.inc < 2 ^ 32) → result ≡ Some a }
{
    if field[0] == 0 {
        return Some(None);
    }
    let site = site_of(field[1])?;
    let inc = u32_at(field, 4);
    Some(Some(Alt { inc, site }))
}

// The same for a taking.
fn taking_like(field: &[u8]) -> Option<Option<Taking>>
    requires { length field.now ≡ 8 }
    ensures { (t : Option Taking) → field.now ≡ taking_bytes t → IfSome t (λ p. p.inc < 2 ^ 32) → result ≡ Some t }
{
    if field[0] == 0 {
        return Some(None);
    }
    let cause = cause_of(field[1])?;
    let inc = u32_at(field, 4);
    Some(Some(Taking { inc, cause }))
}

/// The owner that eight bytes spell under its part of the rule, where they spell one or none.
pub fn read_owner(field: &[u8], last: Inc) -> Option<Option<Owner>>
    requires { length field.now ≡ 8 }
    ensures found { IfSome result (λ o. (field.now ≡ owner_bytes o) × OwnerFits last o) }
    ensures only { (o : Option Owner) → field.now ≡ owner_bytes o → OwnerFits last o → result ≡ Some o }
{
    let owner = owner_like(field)?;
    // The bytes that were not looked at are those of the spelling too.
    if owner_fits(last, owner) && owner_field(owner).as_slice() == field {
        Some(owner)
    } else {
        None
    }
}

/// The same for an alternate beside the record's owner.
pub fn read_alt(field: &[u8], last: Inc, owner: Option<Owner>) -> Option<Option<Alt>>
    requires { length field.now ≡ 8 }
    ensures found { IfSome result (λ a. (field.now ≡ alt_bytes a) × AltFits last owner a) }
    ensures only { (a : Option Alt) → field.now ≡ alt_bytes a → AltFits last owner a → result ≡ Some a }
{
    let alt = alt_like(field)?;
    if alt_fits(last, owner, alt) && alt_field(alt).as_slice() == field {
        Some(alt)
    } else {
        None
    }
}

/// The same for a taking beside the record's alternate.
pub fn read_taking(field: &[u8], last: Inc, alt: Option<Alt>) -> Option<Option<Taking>>
    requires { length field.now ≡ 8 }
    ensures found { IfSome result (λ t. (field.now ≡ taking_bytes t) × TakingFits last alt t) }
    ensures only { (t : Option Taking) → field.now ≡ taking_bytes t → TakingFits last alt t → result ≡ Some t }
{
    let taking = taking_like(field)?;
    if taking_fits(last, alt, taking) && taking_field(taking).as_slice() == field {
        Some(taking)
    } else {
        None
    }
}
