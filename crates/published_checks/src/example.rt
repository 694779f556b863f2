// A published example of full control, and what a verification of it has to come to.
use crate::drive::{FULL, begin, closed, observe};
use crate::meter::Bias;
use control::{Distribution, Permitted, Tolerance};
use journal::{FirstAttempt, Quantity, Record, SequenceFields};
use method::{Line, Plan, Truncated, Verdict};
use std::process::Abort;
use std::test::Fail;

// What is printed of one attempt. Dominance is a ratio above 8, where the print has the function of the random part at 0.
#[derive(Clone, Copy)]
pub struct Attempt {
    pub observations: u8,
    pub sequence: Verdict,
    pub quantity: Verdict,
    pub dominance: bool,
}

// Printed: the meter's permitted error and the tolerances in hundredths of a step, and the reference's permitted error as
// 1 : n, here 10 n. Used: the permitted errors in whole tenths. The outs are printed in the text, of the last attempt.
#[derive(Clone, Copy)]
pub struct Example {
    pub number: u8,
    pub bias: Bias,
    pub printed_meter: u16,
    pub printed_ratio: u16,
    pub meter: u16,
    pub reference: u16,
    pub tolerance: u16,
    pub first: Attempt,
    // The second attempt, behind its own tolerance.
    pub second: Option<(u16, Attempt)>,
    pub outs: Option<u8>,
    pub verdict: Verdict,
}

impl Example {
    // Whether the permitted errors used are the printed ones.
    fn is_exact(self) -> bool {
        let hundredths = 10 * u32::from(self.meter);
        let ratio = u32::from(self.printed_ratio);
        u32::from(self.printed_meter) == hundredths
            && u32::from(self.reference).checked_mul(ratio) == Some(hundredths)
    }

    // P (1 - K / n) at the printed P and n, rounded to hundredths of a step.
    fn rounded_tolerance(self, k: u32) -> Result<u64, Fail> {
        let meter = u64::from(self.printed_meter);
        let ratio = u64::from(self.printed_ratio);
        let share = u64::from(k)
            .saturating_mul(meter)
            .checked_div(ratio)
            .ok_or("no ratio")?;
        Ok((1_000 * meter).saturating_sub(share).saturating_add(500) / 1_000)
    }

    // D after the dominance found. The plan's coefficient makes the printed tolerance of the printed permitted errors, and D is
    // that tolerance wherever they are also the ones used.
    fn tolerance_after(
        self,
        rt: &impl Abort,
        plan: Truncated<Line>,
        dominance: bool,
        printed: u16,
    ) -> Result<u32, Fail> {
        let (distribution, k) = if dominance {
            (Distribution::Uniform, plan.uniform_k())
        } else {
            (Distribution::Trapezoid, plan.trapezoid_k())
        };
        let tolerance = (self.number, u64::from(printed));
        assert_eq!(rt; (self.number, self.rounded_tolerance(k)?), tolerance);
        let permitted = Permitted::new(i32::from(self.meter), i32::from(self.reference))?;
        let width = Tolerance::new(permitted, &plan, distribution).width();
        if self.is_exact() {
            let rounded = (u64::from(width) + 500) / 1_000;
            assert_eq!(rt; (self.number, rounded), tolerance);
        }
        Ok(width)
    }

    // What the record has to say of the first attempt. A second one follows only where the two controls differ.
    fn first_attempt(self) -> Result<FirstAttempt, Fail> {
        if self.second.is_none() {
            return Ok(FirstAttempt::Absent);
        }
        match (self.first.sequence, self.first.quantity) {
            (Verdict::Fit, Verdict::Unfit) => Ok(FirstAttempt::SequenceAlone),
            (Verdict::Unfit, Verdict::Fit) => Ok(FirstAttempt::QuantityAlone),
            _ => Err(Fail::new("the controls do not differ")),
        }
    }

    // What the record has to say, with those fields of `found` that are not printed.
    fn expected(
        self,
        rt: &impl Abort,
        plan: Truncated<Line>,
        found: SequenceFields,
    ) -> Result<SequenceFields, Fail> {
        let width = self.tolerance_after(rt, plan, false, self.tolerance)?;
        let (width, last) = match self.second {
            None => (width, self.first),
            Some((printed, second)) => (
                self.tolerance_after(rt, plan, self.first.dominance, printed)?,
                second,
            ),
        };
        let outs = self.outs.map_or(found.outs, i32::from);
        Ok(SequenceFields {
            first_attempt: self.first_attempt()?,
            observations: i32::from(last.observations),
            outs,
            sequence: last.sequence,
            quantity: Quantity::from(Some(last.quantity)),
            wild: false,
            dominance: last.dominance,
            verdict: self.verdict,
            settling_codes: 3,
            tolerance: i32::try_from(width)?,
            ..found
        })
    }

    // Runs the example as the one point of a verification at the signal 0.
    pub fn run(self, rt: &impl Abort, plan: Truncated<Line>) -> Result<(), Fail> {
        let mut bench = begin(1, FULL, plan)?;
        bench.open(0, i32::from(self.meter), i32::from(self.reference), 0)?;
        let course = observe(&mut bench, self.bias)?;
        let earlier = self.second.map(|_| u32::from(self.first.observations));
        assert_eq!(rt; (self.number, course.earlier), (self.number, earlier));
        let Record::Sequence(found) = closed(&mut bench)? else {
            return Err(Fail::new("another record"));
        };
        let expected = self.expected(rt, plan, found)?;
        assert_eq!(rt; (self.number, found), (self.number, expected));
        Ok(())
    }
}
