// Why a request is refused: the first question that it fails, by name. Question 19, which tells a length too, is apart from the others.
#![tactic(auto)]

ghost use Rattle.std.specs.Prelude.{◌≡◌};
ghost use Rattle.refusals.specs.Refusal.{number};
ghost use Rattle.refusals.specs.OutputError.{number as output_number, second};
ghost use Rattle.refusals.specs.declared.OutputError.TheVariants as Why;

use std::error::Error;
use std::fmt;

// The questions, but for 19, each with its number.
#[derive(Clone, Copy, Debug, PartialEq, Eq, Hash)]
pub enum Refusal {
    // 1: the record has more than 57,348 bytes.
    RecordTooLong,
    // 2: the record does not begin with a count of 1 to 1,024 places.
    PlacesOutOfRange,
    // 3: where a line or the end must stand, there is another byte or none.
    EntryNotKnown,
    // 4: a line has fewer than its ten bytes, or its fourteen with a time.
    LineCutShort,
    // 5: a line's place is not below the count of places.
    LinePlaceNotThere,
    // 6: a line's kind is not 1 to 15.
    LineKindOutOfRange,
    // 7: there are bytes after the record's end byte.
    BytesAfterEnd,
    // 8: where a command must stand in the pattern, there is another byte or none.
    CommandNotKnown,
    // 9: the pattern has more than 63 commands.
    TooManyCommands,
    // 10: a command's kind, slot or counts are not there.
    OperandsMissing,
    // 11: a command's kind is not 1 to 15, or its slot is not 0 to 3.
    OperandOutOfRange,
    // 12: same, other, sister or foreign names a slot that no keep around it keeps.
    SlotNotKept,
    // 13: keeps are nested more than three deep.
    KeepsTooDeep,
    // 14: there are bytes after the complete pattern.
    BytesAfterPattern,
    // 15: an asked place, one of a list too, is not below the count of places.
    AskedPlaceNotThere,
    // 16: the search size is above 1,048,576.
    SearchTooLarge,
    // 17: the work area has too few words.
    WorkAreaTooSmall,
    // 18: a named line is not in the record.
    LineNotThere,
    // 20: the record's length is more than the buffer's.
    LengthBeyondBuffer,
    // 21: the sail number is not below 16,777,216.
    SailNumberTooLarge,
    // 22: the record has more than 4,096 lines, or has that many where one is added.
    RecordFull,
    // 23: the buffer does not hold the record after the act.
    BufferTooSmall,
    // 24: a lowest count of rounds is above the highest, or that is above 20.
    RoundsOutOfRange,
    // 25: the pattern's unfolded count is above 63.
    UnfoldedTooLong,
    // 26: the work area holds no search, or not one as a begin and its moves left it.
    NoSearch,
    // 27: a window does not open before it closes, or closes after 86,400.
    WindowOutOfRange,
    // 28: a line's time is not below 86,400.
    LineTimeOutOfRange,
}

impl Refusal {
    // The number of the question.
    pub fn number(self) -> u8
        ensures { result ≡ number self }
    {
        match self {
            Refusal::RecordTooLong => 1,
            Refusal::PlacesOutOfRange => 2,
            Refusal::EntryNotKnown => 3,
            Refusal::LineCutShort => 4,
            Refusal::LinePlaceNotThere => 5,
            Refusal::LineKindOutOfRange => 6,
            Refusal::BytesAfterEnd => 7,
            Refusal::CommandNotKnown => 8,
            Refusal::TooManyCommands => 9,
            Refusal::OperandsMissing => 10,
            Refusal::OperandOutOfRange => 11,
            Refusal::SlotNotKept => 12,
            Refusal::KeepsTooDeep => 13,
            Refusal::BytesAfterPattern => 14,
            Refusal::AskedPlaceNotThere => 15,
            Refusal::SearchTooLarge => 16,
            Refusal::WorkAreaTooSmall => 17,
            Refusal::LineNotThere => 18,
            Refusal::LengthBeyondBuffer => 20,
            Refusal::SailNumberTooLarge => 21,
            Refusal::RecordFull => 22,
            Refusal::BufferTooSmall => 23,
            Refusal::RoundsOutOfRange => 24,
            Refusal::UnfoldedTooLong => 25,
            Refusal::NoSearch => 26,
            Refusal::WindowOutOfRange => 27,
            Refusal::LineTimeOutOfRange => 28,
        }
    }
}

impl fmt::Display for Refusal {
    fn fmt<W: fmt::Write>(&self, f: &mut fmt::Formatter<W>) -> fmt::Result {
        write!(f, "refused {}", self.number())
    }
}

impl Error for Refusal {}

// Why a question that fills an output has no answer: it is refused, or the output has too few entries, which is question 19, and so many are
// enough.
#[derive(Clone, Copy, Debug, PartialEq, Eq, Hash)]
pub enum OutputError {
    Refused(Refusal),
    TooSmall(usize),
}

impl OutputError {
    // The number of the question.
    pub fn number(self) -> u8
        ensures { result ≡ output_number self }
    {
        match self {
            OutputError::Refused(refusal) => refusal.number(),
            OutputError::TooSmall(_) => 19,
        }
    }

    // The second number that is told with it: 0, but for question 19.
    pub fn second(self) -> usize
        ensures { result ≡ second self }
    {
        match self {
            OutputError::Refused(_) => 0,
            OutputError::TooSmall(enough) => enough,
        }
    }
}

impl From<Refusal> for OutputError {
    ghost from_gives = { λ refusal e. e ≡ Why.Refused refusal };

    fn from(refusal: Refusal) -> OutputError {
        OutputError::Refused(refusal)
    }
}

impl fmt::Display for OutputError {
    fn fmt<W: fmt::Write>(&self, f: &mut fmt::Formatter<W>) -> fmt::Result {
        match self {
            OutputError::Refused(refusal) => write!(f, "{refusal}"),
            OutputError::TooSmall(enough) => write!(f, "refused 19 with {enough}"),
        }
    }
}

impl Error for OutputError {}
