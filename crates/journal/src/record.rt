// A record of any kind, and where it stands in a journal.
use crate::certificate::CertificateFields;
use crate::fault::Place;
use crate::notice::NoticeFields;
use crate::sequence::SequenceFields;
use crate::three_step::ThreeStepFields;

#[derive(Clone, Copy, PartialEq, Eq, Debug)]
pub enum Record {
    Sequence(SequenceFields),
    ThreeStep(ThreeStepFields),
    Certificate(CertificateFields),
    Notice(NoticeFields),
}

#[derive(Clone, Copy, PartialEq, Eq, Debug)]
pub struct Placed {
    pub place: Place,
    pub record: Record,
}

// How many records a journal has, and how many bytes they take.
#[derive(Clone, Copy, PartialEq, Eq, Debug)]
pub struct Extent {
    pub records: usize,
    pub bytes: usize,
}
