// The words that begin a plan.
ghost use Rattle.console.specs.Names.{plan_named};
ghost use Rattle.std.specs.Str.{bytes_eq};
ghost use Rattle.std.specs.Prelude.{◌≡◌};

#[derive(Clone, Copy, PartialEq, Eq, Debug)]
pub enum PlanName {
    Strengthened,
    Normal,
    ThreeStep,
    LineStrengthened,
    LineNormal,
    Tabled,
    Truncated,
}

// Whether two words are the same. `==` says no more; this says it by a name that is promised.
pub fn same_word(word: &[u8], other: &[u8]) -> bool
    ensures { result ≡ bytes_eq word.now other.now }
{
    word == other
}

// The plan that a word begins, if it does.
pub fn name_plan(word: &[u8]) -> Option<PlanName>
    ensures { result ≡ plan_named word.now }
{
    match word {
        b"strengthened" => Some(PlanName::Strengthened),
        b"normal" => Some(PlanName::Normal),
        b"three-step" => Some(PlanName::ThreeStep),
        b"line-strengthened" => Some(PlanName::LineStrengthened),
        b"line-normal" => Some(PlanName::LineNormal),
        b"tabled" => Some(PlanName::Tabled),
        b"truncated" => Some(PlanName::Truncated),
        _ => None,
    }
}
