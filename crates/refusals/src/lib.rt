// Why the library refuses: the refusals of documents 01 and 02 by name, each with its number there, and the place that a refusal tells.
#![tactic(auto)]

ghost use Rattle.std.specs.Prelude.{◌≡◌};
ghost use Rattle.refusals.specs.Answers.{number_of};

// Why something is refused.
#[derive(Clone, Copy, Debug, PartialEq, Eq)]
pub enum Reason {
    // the file is shorter than its header
    ShortFile = 1,
    // it does not start with the letters TTG
    WrongMark = 2,
    WrongVersion = 3,
    WrongStopCount = 4,
    WrongConnectionCount = 5,
    // its length is not the one that its counts give
    WrongLength = 6,
    // a stop's minimum transfer time is too long
    WrongTransferTime = 7,
    // a connection's stops are not two stops of the timetable
    WrongStops = 8,
    // its trip is neither that of the connection before nor one more
    WrongTrip = 9,
    // it does not arrive after it departs, or not within the timetable
    WrongTimes = 10,
    // it does not go on where and after the connection before it in its trip arrives
    WrongJoin = 11,
    // a notice's number is 0
    NoNumber = 12,
    // a connection is not below the timetable's count
    UnknownConnection = 13,
    // a delay is outside its limits
    WrongDelay = 14,
    // a stop is not below the timetable's count
    UnknownStop = 15,
    // an enquiry's time is later than any expected time
    TooLate = 16,
    // the two connections of a margin do not meet at a stop
    NotJoined = 17,
    // a line of the dialogue is no command
    Unreadable = 18,
    // the notice area is too short
    ShortNotices = 21,
    // the graph area is too short
    ShortGraph = 22,
    // the notice area breaks its rules, at a row or in its count
    WrongRow = 23,
    // the graph area is not the one of the timetable and the notices
    WrongGraph = 24,
    // a notice of this number stands on another connection
    StandsElsewhere = 25,
    // as many notices stand as may
    NoRoom = 26,
    // no notice of this number stands
    NotStanding = 27,
    // the predecessors' area is too short
    ShortWork = 28,
    // the journey's area is too short
    ShortJourney = 29,
    // there is no valid journey
    Unreachable = 30,
    // a row of the text is not as it has to be, or alone in its trip
    WrongTextRow = 31,
    // the output area is too short
    ShortOutput = 32,
}

impl Reason {
    // Its number in documents 01 and 02.
    pub fn number(self) -> u16
        ensures { result ≡ number_of self }
    {
        self as u16
    }
}

// A refusal: why, and at which place, 0 where there is none.
#[derive(Clone, Copy, Debug, PartialEq, Eq)]
pub struct Refusal<P = u16>(pub Reason, pub P);

// A place of 16 bits among those that can pass them.
impl From<Refusal> for Refusal<usize> {
    ghost from_gives = { λ r s. (s.0 ≡ r.0) × (s.1 ≡ r.1) };

    fn from(refusal: Refusal) -> Refusal<usize> {
        Refusal(refusal.0, refusal.1 as usize)
    }
}
