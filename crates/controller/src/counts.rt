// How many offers of each requester were accepted.
ghost use Rattle.std.specs.Prelude.{◌≡◌, ℕ, length};
ghost use Rattle.controller.specs.Counts.{count_of, counted};

// A count for each of the sixteen requesters that there can be, in place: by a rule of the project (docs/DECISIONS.md) nothing is allocated.
#[derive(Drop)]
pub(crate) struct Counts {
    each: [u32; 16],
    ghost sixteen: { length each ≡ 16 },
}

impl Counts {
    // None accepted yet.
    pub(crate) fn new() -> Counts
        ensures { (requester : ℕ) → count_of result.each requester ≡ 0 }
    {
        Counts { each: [0; 16] }
    }

    // The count of a requester; 0 of a stranger.
    pub(crate) fn of(&self, requester: u8) -> u32
        ensures { result ≡ count_of self.now.each requester }
    {
        self.each.get(usize::from(requester)).copied().unwrap_or(0)
    }

    // One more offer of the requester.
    pub(crate) fn note(&mut self, requester: u8)
        ensures { self.new.each ≡ counted self.old.each requester }
    {
        let place = usize::from(requester);
        if place < self.each.len() {
            self.each[place] = self.each[place].saturating_add(1);
        }
    }
}
