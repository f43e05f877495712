//! How an alternate that was let through becomes an owner.

ghost use Rattle.std.specs.Prelude.{◌≡◌, ◌<◌, true, List, length};
ghost use Rattle.xrf_history.specs.Events.{Event};
ghost use Rattle.xrf_history.specs.Holding.{is_owner};
ghost use Rattle.xrf_standby.specs.Alternate.{Stands};
ghost use Rattle.xrf_standby.specs.LetThrough.{Stands as IsLetThrough};

use crate::alternate::Alternate;
use crate::let_through::LetThrough;
use xrf_active::Active;

impl Alternate {
    /// The job goes on as that of an owner: it releases the control data set, drains the messages that
    /// are left, and then restarts.
    pub(crate) fn promote(self) -> LetThrough
        ensures settings { result.owner.settings ≡ self.settings }
        ensures stands { (h : List Event) → Stands self h → is_owner h ≡ true → length h < 16386 → IsLetThrough result h }
    {
        let is_leaving = self.is_leaving();
        LetThrough {
            owner: Active::promoted(self.common, self.rooms, &self.settings),
            mode: self.mode,
            is_leaving,
        }
    }
}
