// The simulated meter of the published examples: an ideal quantiser behind a bias.
use std::test::Fail;

// A disturbance of one observation, in tenths.
#[derive(Clone, Copy)]
pub struct Pulse {
    pub observation: u32,
    pub size: i16,
}

// What the meter adds to the level before it rounds, in tenths.
#[derive(Clone, Copy)]
pub enum Bias {
    Steady(i16),
    // The second attempt of a disturbed example has no pulses.
    Pulsed {
        bias: i16,
        pulses: [Pulse; 4],
    },
    // `inner` at the observations `from` to `to`, and `outer` before and after them.
    Jumping {
        outer: i16,
        inner: i16,
        from: u32,
        to: u32,
    },
}

// The bias of an observation, and the first pulse that falls on it.
fn pulsed(bias: i16, pulses: [Pulse; 4], observation: u32) -> i32 {
    let size = pulses
        .iter()
        .find(|pulse| pulse.observation == observation)
        .map_or(0, |pulse| i32::from(pulse.size));
    i32::from(bias) + size
}

impl Bias {
    pub fn at(self, is_first_attempt: bool, observation: u32) -> i32 {
        match self {
            Bias::Steady(bias) => i32::from(bias),
            Bias::Pulsed { bias, pulses } => {
                if is_first_attempt {
                    pulsed(bias, pulses, observation)
                } else {
                    i32::from(bias)
                }
            }
            Bias::Jumping {
                outer,
                inner,
                from,
                to,
            } => {
                if (from..=to).contains(&observation) {
                    i32::from(inner)
                } else {
                    i32::from(outer)
                }
            }
        }
    }
}

// The nearest step, and the upper one at a half: the printed errors reach 0.5 above the bias and only 0.4 below it.
pub fn code_at(level: i32, bias: i32) -> Result<i32, Fail> {
    let tenths = i64::from(level) + i64::from(bias) + 5;
    Ok(i32::try_from(tenths.div_euclid(10))?)
}

// The error that this code has, in tenths.
pub fn error_at(level: i32, bias: i32) -> Result<i64, Fail> {
    Ok(10 * i64::from(code_at(level, bias)?) - i64::from(level))
}
