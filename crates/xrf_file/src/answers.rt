use xrf_base::{ItemAnswer, UnitId, Value};

/// What a job does for an item on a unit. `place` is the number that its log record gets.
#[derive(Clone, Copy)]
pub enum Plan {
    /// The item is answered at once.
    Answer(ItemAnswer),
    /// The record's slot is read, the put is logged, and the value is written.
    Put {
        unit: UnitId,
        rrn: u16,
        value: Value,
        place: u32,
    },
    /// The record's slot is read, and answers the item.
    Get {
        rrn: u16,
    },
    /// The unit's commit is logged.
    Commit {
        unit: UnitId,
        place: u32,
    },
    /// What the unit put is undone, newest first, and its backout is logged.
    Roll {
        unit: UnitId,
        place: u32,
    },
}
