//! The control record.

ghost use Rattle.std.specs.Prelude.{◌≡◌, ◌↔◌, Ok, Err, IsSome, IfSome, IfOk, IfErr};
ghost use Rattle.xrf_ctl.specs.Reading.{HasParts};
ghost use Rattle.xrf_ctl.specs.Control.{ControlRecord, IsControl, empty, of_parts};
ghost use Rattle.xrf_ctl.specs.declared.fault.Field.{Field};
ghost use Rattle.xrf_ctl.specs.Layout.{Spells};
ghost use Rattle.xrf_ctl.specs.Faults.{IsFault};

use crate::fault::{CtlFault, Field};
use crate::fields::{alt_field, owner_field, taking_field};
use crate::parts::{Alt, Owner, Taking};
use crate::places::{lay, lay_u16, lay_u32};
use crate::reading::{
    EYE, alt_of, format_of, has_eye, has_last, is_zero_elsewhere, last_of, owner_of, taking_of,
};
use crate::rule::{alt_fits, is_format, owner_fits, taking_fits};
use std::marker::Model;
use xrf_base::Inc;

/// Which region owns the data sets, which one stands by, and which one is taking over.
#[derive(Clone, Copy)]
pub struct Control {
    format: u16,
    last: Inc,
    owner: Option<Owner>,
    alt: Option<Alt>,
    taking: Option<Taking>,
}

impl Model for Control {
    ghost use Rattle.xrf_ctl.specs.Control.{ControlRecord, IsControl, of_parts};

    ghost Value = { ControlRecord };

    ghost view = { λ c. of_parts c.format c.last c.owner c.alt c.taking };

    ghost invariant = { λ c. IsControl (of_parts c.format c.last c.owner c.alt c.taking) };

    ghost inverse = { λ r. record { format = r.format; last = r.last; owner = r.owner; alt = r.alt; taking = r.taking } };
}

impl Control {
    /// The record before the first sign-on.
    pub fn empty() -> Self
        ensures { result ≡ empty }
    {
        Control {
            format: 1,
            last: 0,
            owner: None,
            alt: None,
            taking: None,
        }
    }

    /// The record of these parts, where there is such a format and they keep the record's rule.
    pub fn make(
        format: u16,
        last: Inc,
        owner: Option<Owner>,
        alt: Option<Alt>,
        taking: Option<Taking>,
    ) -> Option<Self>
        ensures some { IsSome result ↔ IsControl (of_parts format last owner alt taking) }
        ensures value { IfSome result (λ r. r ≡ of_parts format last owner alt taking) }
    {
        if is_format(format)
            && owner_fits(last, owner)
            && alt_fits(last, owner, alt)
            && taking_fits(last, alt, taking)
        {
            Some(Control {
                format,
                last,
                owner,
                alt,
                taking,
            })
        } else {
            None
        }
    }

    /// 1 or 2.
    pub fn format(&self) -> u16
        ensures format { result ≡ self.now.format }
        ensures control { IsControl self.now }
    {
        self.format
    }

    /// The last incarnation that was given, 0 before the first.
    pub fn last(&self) -> Inc
        ensures last { result ≡ self.now.last }
        ensures control { IsControl self.now }
    {
        self.last
    }

    pub fn owner(&self) -> Option<Owner>
        ensures owner { result ≡ self.now.owner }
        ensures control { IsControl self.now }
    {
        self.owner
    }

    pub fn alt(&self) -> Option<Alt>
        ensures alt { result ≡ self.now.alt }
        ensures control { IsControl self.now }
    {
        self.alt
    }

    pub fn taking(&self) -> Option<Taking>
        ensures taking { result ≡ self.now.taking }
        ensures control { IsControl self.now }
    {
        self.taking
    }

    /// The record that 256 bytes spell, or the first field at fault, in the order of `Field`.
    pub fn read(bytes: &[u8; 256]) -> Result<Control, CtlFault>
        ensures ok { (r : ControlRecord) → (result ≡ Ok r) ↔ Spells bytes.now r }
        ensures fault { (f : Field) → (result ≡ Err (record { field = f })) ↔ IsFault bytes.now f }
    {
        match parts_of(bytes) {
            Ok(control) => Ok(control),
            Err(field) => Err(CtlFault { field }),
        }
    }

    /// The one spelling of the record.
    pub fn write(&self) -> [u8; 256]
        ensures { Spells result self.now }
    {
        let mut bytes = [0; 256];
        lay(&mut bytes, 0, &EYE);
        lay_u16(&mut bytes, 4, self.format);
        lay_u32(&mut bytes, 8, self.last);
        lay(&mut bytes, 12, &owner_field(self.owner));
        lay(&mut bytes, 20, &alt_field(self.alt));
        lay(&mut bytes, 28, &taking_field(self.taking));
        bytes
    }
}

// The record that the bytes hold, field by field, or the first field at fault.
fn parts_of(bytes: &[u8; 256]) -> Result<Control, Field>
    ensures found { IfOk result (λ r. IsControl r × HasParts bytes.now r) }
    ensures only { (r : ControlRecord) → HasParts bytes.now r → result ≡ Ok r }
    ensures fault { IfErr result (IsFault bytes.now) }
{
    if !has_eye(bytes) {
        return Err(Field::Eye);
    }
    let format = format_of(bytes);
    if !is_format(format) {
        return Err(Field::Format);
    }
    if !has_last(bytes) {
        return Err(Field::Last);
    }
    let Some(owner) = owner_of(bytes) else {
        return Err(Field::Owner);
    };
    let Some(alt) = alt_of(bytes, owner) else {
        return Err(Field::Alt);
    };
    let Some(taking) = taking_of(bytes, alt) else {
        return Err(Field::Taking);
    };
    if !is_zero_elsewhere(bytes) {
        return Err(Field::Reserved);
    }
    let last = last_of(bytes);
    Ok(Control {
        format,
        last,
        owner,
        alt,
        taking,
    })
}
