// The sorts of field.
#[derive(Clone, Copy, Debug, PartialEq, Eq)]
pub enum Sort {
    // 1 to 16 bytes; only spaces give the starting name
    Name(StartingName),
    // a number from `low` to `high`
    Number { low: u32, high: u32 },
    // 0 or 1
    Flag,
    // one of the listed delays, which may have a sign
    Delay,
    // a volume offset from -3 to 3
    Offset,
    // a number up to `high`, or a dot
    QuickKey { high: u8 },
    // a number up to 999, or NONE
    Tag,
    Frequency,
    Modulation,
    // takes no text
    Reserve,
}

// The names that new records have.
#[derive(Clone, Copy, Debug, PartialEq, Eq)]
pub enum StartingName {
    System,
    Site,
    Group,
    Channel,
    Talkgroup,
}
