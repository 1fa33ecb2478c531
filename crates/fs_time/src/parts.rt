//! What a text of RFC 3339 shows, part by part.

/// What a text shows, before anybody asks whether the calendar has it.
///
/// `2024-02-30T01:00:00.120+01:00` shows the year 2024, the month 2, the day 30, the time of day 1, 0, 0 with the 3 decimals
/// 120, and a clock that is `Ahead(1, 0)`.
#[derive(Clone, Copy)]
pub struct Parts {
    pub year: u16,
    pub month: u8,
    pub day: u8,
    pub hour: u8,
    pub minute: u8,
    pub second: u8,
    /// How many decimals the second has, 0 where the text has no point.
    pub places: u8,
    /// Those decimals, read as one number.
    pub fraction: u32,
    pub offset: Offset,
}

/// How far the clock that a text shows is from UTC, in hours and minutes.
#[derive(Clone, Copy)]
pub enum Offset {
    /// `Z`
    Utc,
    /// `+hh:mm`
    Ahead(u8, u8),
    /// `-hh:mm`
    Behind(u8, u8),
}
