// The calls made since the orders, for an audit.
ghost use Rattle.std.specs.Prelude.{◌≡◌, true, false, [], ◌∷◌, ◌++◌, MatchOption};

use runs::Call;
use std::alloc::Global;

// The list keeps its memory from one verification to the next.
#[derive(Drop)]
pub struct Calls {
    made: Vec<Call>,
    // whether there was memory for each of them
    all_kept: bool,
}

impl Calls {
    pub fn new(heap: Global) -> Calls
        ensures { (result.made.items ≡ []) × (result.all_kept ≡ true) }
    {
        Calls {
            made: Vec::new(heap),
            all_kept: true,
        }
    }

    // For a verification in which no call is made yet.
    pub fn clear(&mut self)
        ensures { (self.new.made.items ≡ []) × (self.new.all_kept ≡ true) }
    {
        self.made.clear();
        self.all_kept = true;
    }

    // Where there is no memory for a call, it is made all the same, and there is no audit until the list is cleared.
    pub fn keep(&mut self, call: Call)
        ensures { self.new.all_kept ≡ true → (self.old.all_kept ≡ true) × (self.new.made.items ≡ self.old.made.items ++ call ∷ []) }
    {
        if self.made.push(call).is_err() {
            self.all_kept = false;
        }
    }

    // All of them, if each was kept.
    pub fn all(&self) -> Option<&[Call]>
        ensures { MatchOption result (self.now.all_kept ≡ false) (λ l. (self.now.all_kept ≡ true) × (l.now ≡ self.now.made.items)) }
    {
        self.all_kept.then_some(self.made.as_slice())
    }
}
