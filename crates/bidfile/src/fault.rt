// The questions of a bid file that can be answered "no".
#[derive(Clone, Copy, PartialEq, Eq, Debug)]
pub enum FileQuestion {
    Length,
    Kind,
    Words,
    Turn,
    Fields,
}

// A question that was answered "no", with the place of the head word of its record, 0 for the whole file.
#[derive(Clone, Copy, PartialEq, Eq, Debug)]
pub struct FileFault {
    pub question: FileQuestion,
    pub place: usize,
}

impl From<FileQuestion> for u32 {
    ghost use Rattle.std.specs.Prelude.{◌≡◌};
    ghost use Rattle.bidfile.specs.Found.{file_question};

    // The number under which docs/questions.md lists the question.
    ghost from_gives = { λ question number. number ≡ file_question question };

    fn from(question: FileQuestion) -> u32 {
        match question {
            FileQuestion::Length => 23,
            FileQuestion::Kind => 24,
            FileQuestion::Words => 25,
            FileQuestion::Turn => 26,
            FileQuestion::Fields => 27,
        }
    }
}

impl From<FileFault> for u32 {
    ghost use Rattle.std.specs.Prelude.{◌≡◌};
    ghost use Rattle.bidfile.specs.Found.{file_question};

    // The number of its question.
    ghost from_gives = { λ fault number. number ≡ file_question fault.question };

    fn from(fault: FileFault) -> u32 {
        u32::from(fault.question)
    }
}
