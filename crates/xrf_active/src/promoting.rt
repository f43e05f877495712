//! How an alternate that was let through becomes an owner.

ghost use Rattle.std.specs.Prelude.{◌≡◌, List};
ghost use Rattle.xrf_history.specs.Events.{Event};
ghost use Rattle.xrf_active.specs.Promoting.{IsLetThrough};
ghost use Rattle.xrf_active.specs.Standing.{Stands};

use crate::active::Active;
use xrf_base::ItemAnswer;
use xrf_file::Plan;
use xrf_history::Settings;
use xrf_job::{Common, Rooms};
use xrf_logrec::Keypoint;

impl Active {
    /// The job of an alternate that was let through, with what it kept as one: the messages that are
    /// left are to be drained, and then it restarts.
    pub fn promoted(common: Common, rooms: Rooms, settings: &Settings) -> Active
        ensures settings { result.settings ≡ settings.now }
        ensures stands { (h : List Event) → IsLetThrough common rooms settings.now h → Stands result h }
    {
        Active {
            settings: *settings,
            common,
            rooms,
            sign_off: None,
            notice: None,
            must_drop: false,
            is_draining: true,
            has_scanned: false,
            has_restarted: false,
            undone: 0,
            opened: 0,
            keypoint: Keypoint {
                number: 0,
                start: 0,
            },
            plan: Plan::Answer(ItemAnswer::Done),
            rolled: 0,
            sending: None,
        }
    }
}
