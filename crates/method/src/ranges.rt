// Numbers as they are passed, held to a range.
ghost use Rattle.method.specs.Refusals.{between};
ghost use Rattle.std.specs.Prelude.{◌≡◌, ◌≤◌, is_some, pos, IfSome};

// z, where it is from low to high.
pub(crate) fn limit(low: u32, high: u32, z: i32) -> Option<u32>
    ensures test { is_some result ≡ between (pos low) (pos high) z }
    ensures value { IfSome result (λ n. (pos n ≡ z) × (low ≤ n) × (n ≤ high)) }
{
    u32::try_from(z).ok().filter(|n| (low..=high).contains(n))
}
