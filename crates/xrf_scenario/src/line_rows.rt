//! Lines at their places, with the reasons for which they are refused there.

use xrf_grammar::Reason;

/// Where in a text a line stands.
#[derive(Clone, Copy)]
pub enum Place {
    /// Before the choices, under XRF 1.
    One,
    /// Before the choices, under XRF 2.
    Two,
    /// Behind CHOICES.
    Choosing,
    /// Behind END.
    Behind,
}

/// A line at a place, and the reason for which it is refused there.
pub type Row = (Place, &'static [u8], Option<Reason>);

/// Bytes, and words that a section does not have.
pub fn bytes_and_unknown_words() -> &'static [Row] {
    &[
        (Place::One, b"ADI\t9", Some(Reason::BadByte)),
        (Place::One, b"WORK A BEGIN U1\x7f", Some(Reason::BadByte)),
        (Place::One, b"RECORD 1 \xe9", Some(Reason::BadByte)),
        (Place::One, b"ADI 9\r\r", Some(Reason::BadByte)),
        (Place::One, b"XRF 1", Some(Reason::UnknownWord)),
        (Place::One, b"END", Some(Reason::UnknownWord)),
        (Place::One, b"TICK", Some(Reason::UnknownWord)),
        (Place::One, b"LEVEL A 1", Some(Reason::UnknownWord)),
        (Place::One, b"XRFSOFF FORCE", Some(Reason::UnknownWord)),
        (Place::One, b"adi 9", Some(Reason::UnknownWord)),
        (Place::One, b"* ACT 1", Some(Reason::UnknownWord)),
        (Place::One, b"STEP A", Some(Reason::UnknownWord)),
    ]
}

/// Sites, names and options.
pub fn names_and_options() -> &'static [Row] {
    &[
        (Place::One, b"APPLID A CICSX", None),
        (Place::One, b"APPLID B $@#9", None),
        (Place::One, b"APPLID B ABCDEFG8", None),
        (Place::One, b"APPLID A", Some(Reason::WordCount)),
        (Place::One, b"APPLID A CICSA X", Some(Reason::WordCount)),
        (Place::One, b"APPLID C CICSA", Some(Reason::BadSite)),
        (Place::One, b"APPLID a CICSA", Some(Reason::BadSite)),
        (Place::One, b"APPLID A cicsa", Some(Reason::BadName)),
        (Place::One, b"APPLID A CICSABCDE", Some(Reason::BadName)),
        (Place::One, b"APPLID C cicsa", Some(Reason::BadSite)),
        (Place::One, b"TAKEOVR AUTO", None),
        (Place::One, b"TAKEOVR MANUAL", None),
        (Place::One, b"TAKEOVR COMMAND", None),
        (Place::One, b"TAKEOVR NEVER", Some(Reason::BadOption)),
        (Place::One, b"TAKEOVR", Some(Reason::WordCount)),
        (Place::One, b"TAKEOVR AUTO X", Some(Reason::WordCount)),
        (Place::One, b"IMAGES ON", None),
        (Place::One, b"IMAGES OFF", None),
        (Place::One, b"IMAGES YES", Some(Reason::BadOption)),
        (Place::One, b"IMAGES on", Some(Reason::BadOption)),
    ]
}

/// Numbers and their ranges.
pub fn numbers() -> &'static [Row] {
    &[
        (Place::One, b"ADI 4", Some(Reason::OutOfRange)),
        (Place::One, b"ADI 5", None),
        (Place::One, b"ADI 3600", None),
        (Place::One, b"ADI 3601", Some(Reason::OutOfRange)),
        (Place::One, b"ADI 05", Some(Reason::BadNumber)),
        (Place::One, b"ADI X", Some(Reason::BadNumber)),
        (Place::One, b"ADI -5", Some(Reason::BadNumber)),
        (Place::One, b"ADI 65536", Some(Reason::BadNumber)),
        (Place::One, b"ADI 65535", Some(Reason::OutOfRange)),
        (Place::One, b"ADI", Some(Reason::WordCount)),
        (Place::One, b"ADI 5 5", Some(Reason::WordCount)),
        (Place::One, b"PDI 4", Some(Reason::OutOfRange)),
        (Place::One, b"PDI 5", None),
        (Place::One, b"PDI 3600", None),
        (Place::One, b"PDI 3601", Some(Reason::OutOfRange)),
        (Place::One, b"LOG 63", Some(Reason::OutOfRange)),
        (Place::One, b"LOG 64", None),
        (Place::One, b"LOG 65", Some(Reason::OutOfRange)),
        (Place::One, b"LOG 1024", None),
        (Place::One, b"LOG 1088", Some(Reason::OutOfRange)),
        (Place::One, b"LOG 0", Some(Reason::OutOfRange)),
        (Place::One, b"RING 1", Some(Reason::OutOfRange)),
        (Place::One, b"RING 2", None),
        (Place::One, b"RING 64", None),
        (Place::One, b"RING 65", Some(Reason::OutOfRange)),
        (Place::One, b"FILE 0", Some(Reason::OutOfRange)),
        (Place::One, b"FILE 1", None),
        (Place::One, b"FILE 256", None),
        (Place::One, b"FILE 257", Some(Reason::OutOfRange)),
        (Place::One, b"PACE 9", Some(Reason::OutOfRange)),
        (Place::One, b"PACE 10", None),
        (Place::One, b"PACE 200", None),
        (Place::One, b"PACE 201", Some(Reason::OutOfRange)),
        (Place::One, b"TICKS 0", None),
        (Place::One, b"TICKS 200", None),
        (Place::One, b"TICKS 201", Some(Reason::OutOfRange)),
    ]
}

/// Records and the command list.
pub fn records_and_lists() -> &'static [Row] {
    &[
        (Place::One, b"RECORD 0 X", Some(Reason::OutOfRange)),
        (Place::One, b"RECORD 1 X", None),
        (Place::One, b"RECORD 16 X", None),
        (Place::One, b"RECORD 257 X", Some(Reason::OutOfRange)),
        (Place::One, b"RECORD 1", Some(Reason::WordCount)),
        (Place::One, b"RECORD 1 A B", Some(Reason::WordCount)),
        (Place::One, b"RECORD 1 ABCDEFGHIJKLMNOPQRSTUVWX", None),
        (
            Place::One,
            b"RECORD 1 ABCDEFGHIJKLMNOPQRSTUVWXY",
            Some(Reason::BadValue),
        ),
        (Place::One, b"RECORD 1 v~!", None),
        (
            Place::One,
            b"RECORD 256 1234567890123456789012345",
            Some(Reason::BadValue),
        ),
        (Place::One, b"RECORD 01 X", Some(Reason::BadNumber)),
        (Place::One, b"CLT CICSB CANCEL CICSA", None),
        (Place::One, b"CLT CICSB COMMAND VARY NET", None),
        (Place::One, b"CLT CICSB WTO any Words", None),
        (Place::One, b"CLT CICSB CANCEL", Some(Reason::WordCount)),
        (Place::One, b"CLT CICSB CANCEL A B", Some(Reason::WordCount)),
        (Place::One, b"CLT CICSB WTO", Some(Reason::WordCount)),
        (Place::One, b"CLT cicsb WTO x", Some(Reason::BadName)),
        (Place::One, b"CLT CICSB CANCEL cicsa", Some(Reason::BadName)),
        (Place::One, b"CLT CICSB SAY x", Some(Reason::BadOption)),
    ]
}

/// Work.
pub fn work() -> &'static [Row] {
    &[
        (Place::One, b"WORK A BEGIN U1", None),
        (Place::One, b"WORK B COMMIT U1", None),
        (Place::One, b"WORK A ROLL U1", None),
        (Place::One, b"WORK C BEGIN U1", Some(Reason::BadSite)),
        (Place::One, b"WORK A BEGIN u1", Some(Reason::BadName)),
        (Place::One, b"WORK A BEGIN", Some(Reason::WordCount)),
        (Place::One, b"WORK A START U1", Some(Reason::BadItem)),
        (Place::One, b"WORK A", Some(Reason::WordCount)),
        (Place::One, b"WORK A SIGNON T1 JOE", Some(Reason::BadItem)),
        (Place::One, b"WORK A SIGNOFF T1", Some(Reason::BadItem)),
        (Place::One, b"WORK A PUT U1 0 X", None),
        (Place::One, b"WORK A PUT U1 65535 X", None),
        (
            Place::One,
            b"WORK A PUT U1 65536 X",
            Some(Reason::BadNumber),
        ),
        (
            Place::One,
            b"WORK A PUT lower 70000 V",
            Some(Reason::BadNumber),
        ),
        (
            Place::One,
            b"WORK A PUT U1 1 ABCDEFGHIJKLMNOPQRSTUVWXY",
            Some(Reason::BadValue),
        ),
        (Place::One, b"WORK A GET U1 1", None),
        (Place::One, b"WORK A GET U1", Some(Reason::WordCount)),
        (Place::One, b"WORK A LOGON T1 0", Some(Reason::OutOfRange)),
        (Place::One, b"WORK A LOGON T1 1", None),
        (Place::One, b"WORK A LOGON T1 3", None),
        (Place::One, b"WORK A LOGON T1 4", Some(Reason::OutOfRange)),
        (Place::One, b"WORK A LOGOFF T1", None),
        (Place::One, b"WORK A CEMT SHUTDOWN", None),
        (Place::One, b"WORK A CEMT SHUTDOWN TAKEOVER", None),
        (
            Place::One,
            b"WORK A CEMT SHUTDOWN X",
            Some(Reason::BadOption),
        ),
        (Place::One, b"WORK A CEMT STOP", Some(Reason::BadOption)),
        (Place::One, b"WORK A CEMT", Some(Reason::WordCount)),
        (Place::One, b"WORK A LOGOUT T1", Some(Reason::BadItem)),
    ]
}

/// Planned choices, and what stands behind XRF 2 alone.
pub fn plan_and_levels() -> &'static [Row] {
    &[
        (Place::One, b"PLAN 0 START A ACTIVE", None),
        (Place::One, b"PLAN 200 ABEND B", None),
        (Place::One, b"PLAN 201 ABEND B", Some(Reason::OutOfRange)),
        (Place::One, b"PLAN x ABEND B", Some(Reason::BadNumber)),
        (Place::One, b"PLAN 5 STEP A", Some(Reason::BadPlan)),
        (Place::One, b"PLAN 5 TICK", Some(Reason::BadPlan)),
        (Place::One, b"PLAN 5 FAIL A NONE", Some(Reason::BadPlan)),
        (Place::One, b"PLAN 5 EXIT A KEEP", Some(Reason::BadPlan)),
        (Place::One, b"PLAN 5 STOP A TORN c1C1", None),
        (Place::One, b"PLAN 5 CEBT B PERFORM TAKEOVER", None),
        (Place::One, b"PLAN 5 CONFIRM 1", None),
        (Place::One, b"PLAN 5 REPLY B GO", None),
        (Place::One, b"PLAN 5", Some(Reason::WordCount)),
        (Place::Two, b"LEVEL A 1", None),
        (Place::Two, b"LEVEL B 2", None),
        (Place::Two, b"LEVEL A 0", Some(Reason::OutOfRange)),
        (Place::Two, b"LEVEL A 3", Some(Reason::OutOfRange)),
        (Place::Two, b"LEVEL C 1", Some(Reason::BadSite)),
        (Place::Two, b"XRFSOFF FORCE", None),
        (Place::Two, b"XRFSOFF NOFORCE", None),
        (Place::Two, b"XRFSOFF MAYBE", Some(Reason::BadOption)),
        (Place::Two, b"WORK A SIGNON T1 JOE", None),
        (Place::Two, b"WORK B SIGNOFF T1", None),
        (Place::Two, b"WORK A SIGNON T1 joe", Some(Reason::BadName)),
    ]
}

/// Choices of the clock and the regions.
pub fn steps_and_stops() -> &'static [Row] {
    &[
        (Place::Choosing, b"TICK", None),
        (Place::Choosing, b"TICK 1", None),
        (Place::Choosing, b"TICK 0", Some(Reason::OutOfRange)),
        (Place::Choosing, b"TICK 8192", None),
        (Place::Choosing, b"TICK 8193", Some(Reason::TooMany)),
        (Place::Choosing, b"TICK 9000", Some(Reason::TooMany)),
        (Place::Choosing, b"TICK 9999", Some(Reason::TooMany)),
        (Place::Choosing, b"TICK 10000", Some(Reason::OutOfRange)),
        (Place::Choosing, b"TICK TOCK", Some(Reason::BadNumber)),
        (Place::Choosing, b"STEP A", None),
        (Place::Choosing, b"STEP B 9", None),
        (Place::Choosing, b"STEP C", Some(Reason::BadSite)),
        (Place::Choosing, b"STEP", Some(Reason::WordCount)),
        (Place::Choosing, b"STEP A 0", Some(Reason::OutOfRange)),
        (Place::Choosing, b"LOSE B", None),
        (Place::Choosing, b"LOSE A 2", Some(Reason::WordCount)),
        (Place::Choosing, b"STOP A NONE", None),
        (Place::Choosing, b"STOP A ALL", None),
        (Place::Choosing, b"STOP A TORN 00", None),
        (Place::Choosing, b"STOP A SOME", Some(Reason::BadOption)),
        (Place::Choosing, b"STOP A TORN", Some(Reason::WordCount)),
        (Place::Choosing, b"STOP A TORN 0", Some(Reason::BadHex)),
        (Place::Choosing, b"STOP A TORN 0g", Some(Reason::BadHex)),
        (
            Place::Choosing,
            b"STOP A TORN ababababababababababababababababababababababababababababababababababababababababababababababababababababababababababababababab",
            None,
        ),
        (
            Place::Choosing,
            b"STOP A TORN abababababababababababababababababababababababababababababababababababababababababababababababababababababababababababababababab",
            Some(Reason::BadHex),
        ),
        (Place::Choosing, b"FAIL B NONE", None),
        (Place::Choosing, b"FAIL B ALL", None),
        (Place::Choosing, b"FAIL B TORN C1c1", None),
        (Place::Choosing, b"FAIL B TORN xyz", Some(Reason::BadHex)),
        (Place::Choosing, b"START A ACTIVE", None),
        (Place::Choosing, b"START B STANDBY", None),
        (Place::Choosing, b"START A ALONE", Some(Reason::BadOption)),
        (Place::Choosing, b"ABEND A", None),
        (Place::Choosing, b"ABEND X", Some(Reason::BadSite)),
        (Place::Choosing, b"  STEP   A  ", None),
    ]
}

/// Choices of the operator, and lines behind END.
pub fn commands_and_replies() -> &'static [Row] {
    &[
        (Place::Choosing, b"CONFIRM 0", None),
        (Place::Choosing, b"CONFIRM 65535", None),
        (Place::Choosing, b"CONFIRM 65536", Some(Reason::BadNumber)),
        (Place::Choosing, b"REPLY B GO", None),
        (Place::Choosing, b"REPLY B IGNORE", None),
        (Place::Choosing, b"REPLY B WAIT", Some(Reason::BadOption)),
        (Place::Choosing, b"EXIT A ABEND", None),
        (Place::Choosing, b"EXIT A KEEP", None),
        (Place::Choosing, b"EXIT A DROP", None),
        (Place::Choosing, b"EXIT A GO", Some(Reason::BadOption)),
        (Place::Choosing, b"CEBT B PERFORM TAKEOVER", None),
        (Place::Choosing, b"CEBT B PERFORM SHUTDOWN", None),
        (Place::Choosing, b"CEBT B INQUIRE TAKEOVER", None),
        (Place::Choosing, b"CEBT B INQUIRE SURVEILLANCE", None),
        (Place::Choosing, b"CEBT B SET TAKEOVER AUTO", None),
        (Place::Choosing, b"CEBT B SET SURVEILLANCE OFF", None),
        (
            Place::Choosing,
            b"CEBT B SET SURVEILLANCE MAYBE",
            Some(Reason::BadCebt),
        ),
        (Place::Choosing, b"CEBT B PERFORM IT", Some(Reason::BadCebt)),
        (
            Place::Choosing,
            b"CEBT B ASK TAKEOVER",
            Some(Reason::BadCebt),
        ),
        (
            Place::Choosing,
            b"CEBT C ASK TAKEOVER",
            Some(Reason::BadSite),
        ),
        (Place::Choosing, b"ADI 9", Some(Reason::UnknownWord)),
        (Place::Choosing, b"CHOICES", Some(Reason::UnknownWord)),
        (
            Place::Choosing,
            b"PLAN 5 ABEND A",
            Some(Reason::UnknownWord),
        ),
        (Place::Choosing, b"END 1", Some(Reason::WordCount)),
        (Place::Behind, b"* ACT 1 0 A 0 START ACTIVE", None),
        (Place::Behind, b"*\x01", None),
        (Place::Behind, b"# a remark", None),
        (Place::Behind, b"   ", None),
        (Place::Behind, b"TICK", Some(Reason::AfterEnd)),
        (Place::Behind, b" * not first", Some(Reason::AfterEnd)),
        (Place::Behind, b"END", Some(Reason::AfterEnd)),
    ]
}
