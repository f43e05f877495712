//! A scenario with the lines of its command list picked apart by site.

ghost use Rattle.std.specs.Prelude.{◌≡◌, ◌-◌, [], IfOk, map, slice_index_or};
ghost use Rattle.xrf_clt.specs.Table.{texts_for};

use std::alloc::{AllocError, Global};
use std::marker::Model;
use xrf_base::{Name8, Site};
use xrf_clt::Clt;
use xrf_setup::{Format, Scenario};

/// A scenario, and of each site the lines of the command list for its applid, in their order. They are gone over once
/// here, so that an act that issues one finds it by its number. Contracts see the scenario.
#[derive(Drop)]
pub(crate) struct Picked<'a> {
    scenario: &'a Scenario,
    own_a: Vec<&'a [u8]>,
    own_b: Vec<&'a [u8]>,
}

impl<'a> Model for Picked<'a> {
    ghost use Rattle.std.specs.Prelude.{◌≡◌, map};
    ghost use Rattle.xrf_clt.specs.Table.{texts_for};
    ghost use Rattle.xrf_setup.specs.Scenario.{Scen};

    ghost Value = { Scen };

    ghost view = { λ p. p.scenario.now };

    ghost invariant = { λ p. (map (λ line. line.now) p.own_a.items ≡ texts_for p.scenario.now.settings.applid_a p.scenario.now.clt) × (map (λ line. line.now) p.own_b.items ≡ texts_for p.scenario.now.settings.applid_b p.scenario.now.clt) };
}

// the lines of an applid
fn own_lines<'a>(alloc: Global, clt: &'a Clt, applid: Name8) -> Result<Vec<&'a [u8]>, AllocError>
    ensures { IfOk result (λ own. map (λ line. line.now) own.items ≡ texts_for applid clt.now) }
{
    let mut own = Vec::with_capacity(alloc, clt.count())?;
    for place in 0..clt.count() {
        let (named, line) = clt.line(place);
        if named == applid {
            own.push(line)?;
        }
    }
    Ok(own)
}

// the line of a number from 1, none where there are not so many
fn numbered<'a>(own: &[&'a [u8]], number: u16) -> &'a [u8]
    ensures { result.now ≡ slice_index_or (map (λ line. line.now) own.now) (number - 1) [] }
{
    let place = number.saturating_sub(1) as usize;
    if place < own.len() { own[place] } else { b"" }
}

impl<'a> Picked<'a> {
    ghost use Rattle.xrf_report.specs.Acts.{clt_at};

    pub(crate) fn new(alloc: Global, scenario: &'a Scenario) -> Result<Picked<'a>, AllocError>
        ensures { IfOk result (λ picked. picked ≡ scenario.now) }
    {
        let own_a = own_lines(alloc, scenario.clt(), scenario.applid(Site::A))?;
        let own_b = own_lines(alloc, scenario.clt(), scenario.applid(Site::B))?;
        Ok(Picked {
            scenario,
            own_a,
            own_b,
        })
    }

    pub(crate) fn format(&self) -> Format
        ensures { result ≡ self.now.settings.format }
    {
        self.scenario.format()
    }

    /// The line of the command list of a number, among those for a site's applid.
    pub(crate) fn line(&self, site: Site, number: u16) -> &[u8]
        ensures { result.now ≡ clt_at self.now site number }
    {
        match site {
            Site::A => numbered(&self.own_a, number),
            Site::B => numbered(&self.own_b, number),
        }
    }
}
