// Why a record is not read, and where it stands.
ghost use Rattle.journal.specs.Reading.{fault};
ghost use Rattle.std.specs.Prelude.{◌≡◌};

use method::Question;
use std::fmt;

// Where a question of reading is put: about the record's kind, its bits or its fields.
#[derive(Clone, Copy, PartialEq, Eq, Debug)]
pub enum Layer {
    Kind,
    Bits,
    Field,
}

impl fmt::Display for Layer {
    fn fmt<W: fmt::Write>(&self, f: &mut fmt::Formatter<W>) -> fmt::Result {
        f.write_str(match self {
            Layer::Kind => "kind",
            Layer::Bits => "bits",
            Layer::Field => "field",
        })
    }
}

// Where a record stands: the how manieth it is, from 1, and its first byte, from 0.
#[derive(Clone, Copy, PartialEq, Eq, Debug)]
pub struct Place {
    pub ordinal: usize,
    pub first_byte: usize,
}

// The first question of reading that was answered no, in its layer, at the record's place.
#[derive(Clone, Copy, PartialEq, Eq, Debug)]
pub struct Fault {
    pub question: Question,
    pub layer: Layer,
    pub place: Place,
}

impl Place {
    // The fault of a record that stands here.
    pub(crate) fn fault(self, question: Question, layer: Layer) -> Fault
        ensures { result ≡ fault question layer self }
    {
        Fault {
            question,
            layer,
            place: self,
        }
    }
}
