// The journal: records packed bit by bit, one behind another in bytes that the caller lends.
#![tactic(auto)]

mod bits;
mod certificate;
mod coded;
mod codes;
mod fault;
mod field;
mod fields;
mod kind;
mod layers;
mod notice;
mod reader;
mod record;
mod records;
mod sequence;
mod three_step;
mod writing;

pub use certificate::{Certificate, CertificateFields};
pub use codes::{FirstAttempt, Quantity, Signal};
pub use fault::{Fault, Layer, Place};
pub use kind::RecordKind;
pub use notice::{Notice, NoticeFields};
pub use reader::Reader;
pub use record::{Extent, Placed, Record};
pub use records::{read_through, write_record};
pub use sequence::{Sequence, SequenceFields};
pub use three_step::{ThreeStep, ThreeStepFields};
pub use writing::write;
