//! The scenario: settings, first records, the command list, the work of both sites, and a plan.

ghost use Rattle.std.specs.Prelude.{◌≡◌, IfOk};

use crate::choice::Choice;
use crate::format::Format;
use crate::settings::Settings;
use std::alloc::AllocError;
use std::marker::Model;
use xrf_base::{Item, Limits, Name8, Site, Takeovr, Tick, Value};
use xrf_clt::Clt;
use xrf_ctl::Level;

/// A scenario. Contracts see its parts (`Scen` of the specs).
#[derive(Drop)]
pub struct Scenario {
    settings: Settings,
    // by number
    records: Vec<(u16, Value)>,
    clt: Clt,
    work_a: Vec<Item>,
    work_b: Vec<Item>,
    plan: Vec<(Tick, Choice)>,
}

impl Model for Scenario {
    ghost use Rattle.xrf_setup.specs.Scenario.{Scen, IsScen};

    ghost Value = { Scen };

    ghost view = { λ s. record { settings = s.settings; records = s.records.items; clt = s.clt; work_a = s.work_a.items; work_b = s.work_b.items; plan = s.plan.items } };

    ghost invariant = { λ s. IsScen (record { settings = s.settings; records = s.records.items; clt = s.clt; work_a = s.work_a.items; work_b = s.work_b.items; plan = s.plan.items }) };
}

fn copied_records(records: &Vec<(u16, Value)>) -> Result<Vec<(u16, Value)>, AllocError>
    ensures { IfOk result (λ copy. copy.items ≡ records.now.items) }
{
    records.clone()
}

fn copied_plan(plan: &Vec<(Tick, Choice)>) -> Result<Vec<(Tick, Choice)>, AllocError>
    ensures { IfOk result (λ copy. copy.items ≡ plan.now.items) }
{
    plan.clone()
}

fn copied_work(work: &Vec<Item>) -> Result<Vec<Item>, AllocError>
    ensures { IfOk result (λ copy. copy.items ≡ work.now.items) }
{
    work.clone()
}

impl Scenario {
    ghost use Rattle.xrf_setup.specs.Scenario.{Scen, IsScen, work, limits};
    ghost use Rattle.xrf_setup.specs.Settings.{applid_of, level_at};
    ghost use Rattle.xrf_base.specs.Ranges.{AreLimits};

    /// A scenario of these parts, the records by number.
    pub fn new(
        settings: Settings,
        records: Vec<(u16, Value)>,
        clt: Clt,
        work_a: Vec<Item>,
        work_b: Vec<Item>,
        plan: Vec<(Tick, Choice)>,
    ) -> Scenario
        requires { IsScen (record { settings = settings; records = records.items; clt = clt; work_a = work_a.items; work_b = work_b.items; plan = plan.items }) }
        ensures { result ≡ record { settings = settings; records = records.items; clt = clt; work_a = work_a.items; work_b = work_b.items; plan = plan.items } }
    {
        Scenario {
            settings,
            records,
            clt,
            work_a,
            work_b,
            plan,
        }
    }

    /// All settings.
    pub fn settings(&self) -> &Settings
        ensures settings { result.now ≡ self.now.settings }
        ensures scenario { IsScen self.now }
    {
        &self.settings
    }

    /// APPLID: the name of a site's region.
    pub fn applid(&self, site: Site) -> Name8
        ensures applid { result ≡ applid_of self.now.settings site }
        ensures scenario { IsScen self.now }
    {
        match site {
            Site::A => self.settings.applid_a,
            Site::B => self.settings.applid_b,
        }
    }

    /// TAKEOVR: what an alternate may do by itself.
    pub fn takeovr(&self) -> Takeovr
        ensures takeovr { result ≡ self.now.settings.takeovr }
        ensures scenario { IsScen self.now }
    {
        self.settings.takeovr
    }

    /// ADI: 5 to 3600 seconds.
    pub fn adi(&self) -> u32
        ensures adi { result ≡ self.now.settings.adi }
        ensures scenario { IsScen self.now }
    {
        self.settings.adi as u32
    }

    /// PDI: 5 to 3600 seconds.
    pub fn pdi(&self) -> u32
        ensures pdi { result ≡ self.now.settings.pdi }
        ensures scenario { IsScen self.now }
    {
        self.settings.pdi as u32
    }

    /// LOG: how many slots the log has, a multiple of 64 from 64 to 1024.
    pub fn log(&self) -> u16
        ensures log { result ≡ self.now.settings.log }
        ensures scenario { IsScen self.now }
    {
        self.settings.log
    }

    /// RING: how many messages a ring holds, 2 to 64.
    pub fn ring(&self) -> u8
        ensures ring { result ≡ self.now.settings.ring }
        ensures scenario { IsScen self.now }
    {
        self.settings.ring as u8
    }

    /// FILE: how many records the file has, 1 to 256.
    pub fn file(&self) -> u16
        ensures file { result ≡ self.now.settings.file }
        ensures scenario { IsScen self.now }
    {
        self.settings.file
    }

    /// The sizes of the data sets: LOG, RING and FILE.
    pub fn limits(&self) -> Limits
        ensures limits { result ≡ limits self.now }
        ensures ranges { AreLimits result }
    {
        Limits {
            log: self.settings.log,
            ring: self.settings.ring as u8,
            file: self.settings.file,
        }
    }

    /// PACE: 10 to 200.
    pub fn pace(&self) -> u32
        ensures pace { result ≡ self.now.settings.pace }
        ensures scenario { IsScen self.now }
    {
        self.settings.pace as u32
    }

    /// TICKS: 0 to 200.
    pub fn ticks(&self) -> Tick
        ensures ticks { result ≡ self.now.settings.ticks }
        ensures scenario { IsScen self.now }
    {
        self.settings.ticks as Tick
    }

    /// IMAGES: whether it is ON.
    pub fn images(&self) -> bool
        ensures images { result ≡ self.now.settings.images }
        ensures scenario { IsScen self.now }
    {
        self.settings.images
    }

    /// The format of the text that spells the scenario.
    pub fn format(&self) -> Format
        ensures format { result ≡ self.now.settings.format }
        ensures scenario { IsScen self.now }
    {
        self.settings.format
    }

    /// LEVEL: the level of a site.
    pub fn level(&self, site: Site) -> Level
        ensures level { result ≡ level_at self.now.settings site }
        ensures scenario { IsScen self.now }
    {
        match site {
            Site::A => self.settings.level_a,
            Site::B => self.settings.level_b,
        }
    }

    /// XRFSOFF: whether it is FORCE.
    pub fn xrfsoff_force(&self) -> bool
        ensures force { result ≡ self.now.settings.force }
        ensures scenario { IsScen self.now }
    {
        self.settings.force
    }

    /// The first records, by number.
    pub fn records(&self) -> &[(u16, Value)]
        ensures records { result.now ≡ self.now.records }
        ensures scenario { IsScen self.now }
    {
        self.records.as_slice()
    }

    /// The command list.
    pub fn clt(&self) -> &Clt
        ensures clt { result.now ≡ self.now.clt }
        ensures scenario { IsScen self.now }
    {
        &self.clt
    }

    /// The work of a site, in order.
    pub fn work(&self, site: Site) -> &[Item]
        ensures work { result.now ≡ work self.now site }
        ensures scenario { IsScen self.now }
    {
        match site {
            Site::A => self.work_a.as_slice(),
            Site::B => self.work_b.as_slice(),
        }
    }

    /// The planned choices with their ticks, in order.
    pub fn plan(&self) -> &[(Tick, Choice)]
        ensures plan { result.now ≡ self.now.plan }
        ensures scenario { IsScen self.now }
    {
        self.plan.as_slice()
    }

    /// The same scenario in memory of its own.
    pub fn copy(&self) -> Result<Scenario, AllocError>
        ensures { IfOk result (λ scenario. scenario ≡ self.now) }
    {
        Ok(Scenario {
            settings: self.settings,
            records: copied_records(&self.records)?,
            clt: self.clt.copy()?,
            work_a: copied_work(&self.work_a)?,
            work_b: copied_work(&self.work_b)?,
            plan: copied_plan(&self.plan)?,
        })
    }
}
