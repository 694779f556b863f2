// The certificate: how a verification ended.
ghost use Rattle.journal.specs.Kinds.{certificate, earned};
ghost use Rattle.std.specs.Prelude.{◌≡◌, refl};
ghost use Rattle.journal.specs.Sounds.{certificate_sound};

use crate::bits::{Packing, Unpacking};
use crate::coded::Coded;
use crate::fields::{CLOSED, CODES_ACCEPTED, FLAG, POINT, UNFIT};
use crate::kind::RecordKind;
use method::Verdict;

#[derive(Clone, Copy, PartialEq, Eq, Debug)]
pub struct CertificateFields {
    pub declared: i32,
    pub closed: i32,
    pub unfit: i32,
    pub verdict: Verdict,
    pub codes_accepted: i32,
}

// The verdict that follows from the points: fit if every declared point was closed fit.
fn earned(fields: &CertificateFields) -> Verdict
    ensures { result ≡ earned fields.now }
{
    Verdict::from(fields.unfit == 0 && fields.closed == fields.declared)
}

impl CertificateFields {
    // The numbers of the fields, in the order in which they are written.
    pub fn numbers(&self) -> [i32; 5]
        ensures { result ≡ certificate.numbers self.now }
    {
        [
            self.declared,
            self.closed,
            self.unfit,
            self.verdict.code(),
            self.codes_accepted,
        ]
    }
}

pub struct Certificate;

impl RecordKind for Certificate {
    type Fields = CertificateFields;

    const NUMBER: u8 = 3;

    const LENGTH: usize = 8;

    ghost NUMBER = { certificate.number };

    ghost LENGTH = { certificate.size };

    ghost format = { certificate };

    ghost consts = { (refl, refl) };

    ghost sound = { certificate_sound };

    fn related(fields: &CertificateFields) -> bool {
        fields.closed <= fields.declared
            && fields.unfit <= fields.closed
            && fields.verdict == earned(fields)
    }

    fn pack(fields: &CertificateFields, bits: &mut Packing) {
        bits.put(POINT, fields.declared);
        bits.put(CLOSED, fields.closed);
        bits.put(UNFIT, fields.unfit);
        bits.put(FLAG, fields.verdict);
        bits.put(CODES_ACCEPTED, fields.codes_accepted);
    }

    fn unpack(bits: &mut Unpacking) -> CertificateFields {
        CertificateFields {
            declared: bits.take(POINT),
            closed: bits.take(CLOSED),
            unfit: bits.take(UNFIT),
            verdict: bits.take(FLAG),
            codes_accepted: bits.take(CODES_ACCEPTED),
        }
    }
}
