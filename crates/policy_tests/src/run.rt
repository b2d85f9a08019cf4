// A run of offers and ticks as a controller would make them, each answer held against the recount.
use crate::recount::{Bag, Expected};
use policy::{Entry, NoPlace, Numbers};
use rulebook::Kind;
use std::process::Abort;
use std::test::*;

// Numbers that look random, from a start.
#[derive(Drop)]
struct Chance(u64);

impl Chance {
    // A number below the bound, which is not 0.
    fn below(&mut self, bound: u32) -> u32 {
        self.0 = self
            .0
            .wrapping_mul(6_364_136_223_846_793_005)
            .wrapping_add(1_442_695_040_888_963_407);
        if bound == 0 {
            return 0;
        }
        ((self.0 >> 33) % u64::from(bound)) as u32
    }
}

// What is in service: its base, and its last cycle.
#[derive(Clone, Copy)]
struct Service {
    base: u64,
    last: u64,
}

// How often a run saw what it is to try.
#[derive(Clone, Copy, Default)]
pub struct Seen {
    pub taken: u32,
    pub refused: u32,
    pub given: u32,
}

// The course of a run: the start of chance, how many ticks there are, and how seldom an offer comes, at one tick of so many.
#[derive(Clone, Copy)]
pub struct Course {
    pub seed: u64,
    pub ticks: u32,
    pub calm: u32,
}

// A run under way: the policy, what waits as recounted, and what is in service.
// What it saw is counted as it goes: a chain over the ticks would have to carry the policy, the bag and the failure along.
#[derive(Drop)]
struct Trial<P> {
    policy: P,
    bag: Bag,
    chance: Chance,
    service: Option<Service>,
    seen: Seen,
}

impl<P: Expected + Drop> Trial<P> {
    // An offer as it comes, of a requester that may be a stranger.
    fn any_entry(&mut self) -> Entry {
        let numbers = self.bag.numbers;
        let chance = &mut self.chance;
        let requester = (chance.below(u32::from(numbers.requesters) + 1) % 256) as u8;
        Entry {
            requester,
            number: self.seen.taken.saturating_add(self.seen.refused),
            kind: if chance.below(2) == 0 {
                Kind::Read
            } else {
                Kind::Write
            },
            bank: (chance.below(u32::from(numbers.banks)) % 16) as u8,
            row: (chance.below(65_536) % 65_536) as u16,
            column: (chance.below(1_024) % 1_024) as u16,
            deadline: u64::from(chance.below(1_000)),
        }
    }

    // An offer at the clock: refused exactly where all places wait, and then nothing moves; else its deadline is the order's, within reach, and room is left for all.
    fn offer(&mut self, rt: &impl Abort, clock: u32) -> Result<(), Fail> {
        let behind = u64::from(clock).saturating_sub(1);
        let base = self.service.map_or(behind, |running| running.base);
        let entry = self.any_entry();
        let before = self.policy.clock();
        let full = self.bag.is_full(entry.requester);
        match self.policy.offer(clock, base, entry) {
            Err(NoPlace) => {
                assert!(rt; full);
                assert_eq!(rt; self.policy.clock(), before);
                self.seen.refused = self.seen.refused.saturating_add(1);
            }
            Ok(deadline) => {
                assert!(rt; !full);
                assert_eq!(rt; self.policy.clock(), clock);
                let due = P::deadline(&self.bag, entry.requester, clock, base);
                assert_eq!(rt; deadline, due);
                let furthest = behind.saturating_add(u64::from(self.policy.reach()));
                assert!(rt; deadline <= furthest);
                let bank = P::bank(self.bag.numbers, entry);
                self.bag.put(Entry {
                    deadline,
                    bank,
                    ..entry
                })?;
                self.bag.leaves_room::<P>(rt, base);
                self.seen.taken = self.seen.taken.saturating_add(1);
            }
        }
        Ok(())
    }

    // A turn at the clock with nothing in service: the first entry, at the start of its slot if the policy holds; or none, where every entry has a span to spare.
    fn turn(&mut self, rt: &impl Abort, clock: u32) -> Result<(), Fail> {
        let now = u64::from(clock);
        let span = self.bag.numbers.span;
        let given = self.policy.turn(clock);
        assert_eq!(rt; self.policy.clock(), clock);
        let Some(entry) = given else {
            self.bag.leaves_room::<P>(rt, now);
            return Ok(());
        };
        self.bag.take_first::<P>(rt, entry)?;
        let base = now.saturating_add(u64::from(span)).saturating_sub(1);
        assert!(rt; base <= entry.deadline);
        self.bag.leaves_room::<P>(rt, base);
        let last = if P::HOLDS {
            assert_eq!(rt; entry.deadline, base);
            base
        } else {
            now.saturating_add(u64::from(self.chance.below(span)))
        };
        self.service = Some(Service { base, last });
        self.seen.given = self.seen.given.saturating_add(1);
        Ok(())
    }

    // A tick at the clock, with an offer before it now and then.
    fn tick(&mut self, rt: &impl Abort, clock: u32, calm: u32) -> Result<(), Fail> {
        if self.chance.below(calm) == 0 {
            self.offer(rt, clock)?;
        }
        if self.service.is_none() {
            self.turn(rt, clock)?;
        }
        let now = u64::from(clock);
        self.service = self.service.filter(|running| running.last > now);
        Ok(())
    }
}

// What a run of a policy of these numbers saw, to the end of its course.
pub(crate) fn run<P: Expected + Drop>(
    rt: &impl Abort,
    policy: P,
    numbers: Numbers,
    course: Course,
) -> Result<Seen, Fail> {
    let mut trial = Trial {
        policy,
        bag: Bag::new(numbers),
        chance: Chance(course.seed),
        service: None,
        seen: Seen::default(),
    };
    for clock in 1..=course.ticks {
        trial.tick(rt, clock, course.calm)?;
    }
    assert_eq!(rt; trial.bag.own(numbers.requesters), 0);
    assert_eq!(rt;
        u64::from(trial.seen.taken),
        trial.bag.len().saturating_add(u64::from(trial.seen.given))
    );
    Ok(trial.seen)
}
