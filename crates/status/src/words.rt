// "Trade words", each with its number.
ghost use Rattle.std.specs.Prelude.{◌≡◌};
ghost use Rattle.status.specs.Number.{refusal_number, failure_number};

// A refusal changes nothing.
#[derive(Clone, Copy, Debug, PartialEq, Eq)]
pub enum Refusal {
    BadRequest = 1,
    TransferEnded = 2,
    FrameSpaceShort = 3,
    AnswerWithoutFrame = 4,
    MalformedFrame = 5,
    UnexpectedFrameType = 6,
    WrongAddress = 7,
    UnknownTag = 8,
}

// A failure ends the port.
#[derive(Clone, Copy, Debug, PartialEq, Eq)]
pub enum Failure {
    DataOffsetError = 20,
    TooMuchData = 21,
    IncorrectDataLength = 22,
    XferRdyTooShort = 23,
    XferRdyTooLong = 24,
    XferRdyIncorrectWriteDataLength = 25,
    XferRdyRequestedOffsetError = 26,
    XferRdyNotExpected = 27,
    NakReceived = 28,
    AckNakTimeout = 29,
    ConnectionLost = 30,
    NexusLoss = 31,
    ResponseTooShort = 32,
    InitiatorResponseTimeout = 33,
    ResponseDataWrong = 34,
}

impl Refusal {
    // 1 to 8.
    pub fn number(self) -> u8
        ensures { result ≡ refusal_number self }
    {
        self as u8
    }
}

impl Failure {
    // 20 to 34.
    pub fn number(self) -> u8
        ensures { result ≡ failure_number self }
    {
        self as u8
    }
}
