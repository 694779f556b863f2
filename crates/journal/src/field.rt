// The fields of records: how many bits each has, and the range of its numbers.
ghost use Rattle.std.specs.Prelude.{◌≡◌, ◌^◌, ◌<◌, ◌≤◌};
ghost use Rattle.journal.specs.Fields.{coded, in_range, told};

// A field of `width` bits for the numbers from `low` to `high`; two's complement where `low` is negative.
#[derive(Clone, Copy)]
pub struct Field {
    pub(crate) width: u32,
    pub(crate) low: i32,
    pub(crate) high: i32,
}

impl Field {
    // Whether the number is in the field's range.
    pub(crate) fn holds(self, number: i32) -> bool
        ensures { result ≡ in_range self number }
    {
        (self.low..=self.high).contains(&number)
    }

    // The bits of a number. Here and below `as` is proved to lose nothing, and a `try_from` would need an answer for what can't be.
    pub(crate) fn code(self, number: i32) -> u64
        requires { self.width ≤ 30 }
        ensures { result ≡ coded self.width number }
    {
        i64::from(number).rem_euclid(1 << self.width) as u64
    }

    // The number that bits stand for.
    pub(crate) fn number(self, code: u32) -> i32
        requires some { 1 ≤ self.width }
        requires narrow { self.width ≤ 30 }
        requires below { code < 2 ^ self.width }
        ensures { result ≡ told self code }
    {
        if self.low < 0 && code >= 1 << (self.width - 1) {
            -1 - ((1 << self.width) - 1 - code) as i32
        } else {
            code as i32
        }
    }
}
