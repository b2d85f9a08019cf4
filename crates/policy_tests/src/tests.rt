// The tests: worked values, refusals, and runs against the recount.
use crate::recount::Expected;
use crate::run::{Course, run};
use policy::{Entry, FirstCome, NoPlace, Numbers, Policy, PolicyRefusal, Spreading, TurnOrder};
use rulebook::Kind;
use std::process::Abort;
use std::test::*;

// A read of the requester.
fn read_of(requester: u8) -> Entry {
    Entry {
        requester,
        number: 0,
        kind: Kind::Read,
        bank: 3,
        row: 6,
        column: 1,
        deadline: 0,
    }
}

#[test]
fn first_come_counts_from_the_base(rt: HostRuntime) -> Result<(), Fail> {
    let mut policy = FirstCome::new(2, 2, 36, 8)?;
    assert_eq!(rt; policy.reach(), 180);
    assert_eq!(rt; policy.offer(1, 0, read_of(0)), Ok(36));
    assert_eq!(rt; policy.offer(1, 0, read_of(1)), Ok(72));
    assert!(rt; policy.turn(1).is_some());
    assert!(rt; policy.turn(5).is_some());
    assert_eq!(rt; policy.offer(5, 4, read_of(0)), Ok(40));
    Ok(())
}

#[test]
fn turn_order_gives_own_slots(rt: HostRuntime) -> Result<(), Fail> {
    let mut policy = TurnOrder::new(2, 2, 36, 8)?;
    assert_eq!(rt; policy.offer(1, 0, read_of(1)), Ok(72));
    assert_eq!(rt; policy.offer(1, 0, read_of(1)), Ok(144));
    assert_eq!(rt; policy.offer(1, 0, read_of(1)), Err(NoPlace));
    assert!(rt; policy.turn(1).is_none());
    assert!(rt; policy.turn(36).is_none());
    assert!(rt; policy.turn(37).is_some());
    Ok(())
}

// The deadline that requester 0 is given alone at the clock.
fn alone_at(clock: u32) -> Option<u64> {
    let mut policy = TurnOrder::new(2, 2, 36, 8).ok()?;
    let base = u64::from(clock).saturating_sub(1);
    policy.offer(clock, base, read_of(0)).ok()
}

#[test]
fn a_slot_that_has_begun_is_not_taken(rt: HostRuntime) -> Result<(), Fail> {
    assert_eq!(rt; alone_at(1), Some(36));
    assert_eq!(rt; alone_at(2), Some(108));
    assert_eq!(rt; alone_at(73), Some(108));
    assert_eq!(rt; alone_at(74), Some(180));
    Ok(())
}

#[test]
fn spreading_turns_banks_by_the_row(rt: HostRuntime) -> Result<(), Fail> {
    let below = FirstCome::new(2, 2, 36, 8)?;
    let mut policy = Spreading::new(below);
    assert_eq!(rt; policy.offer(1, 0, read_of(0)), Ok(36));
    let given = policy.turn(1).ok_or("nothing given")?;
    assert_eq!(rt; given.bank, 1);
    Ok(())
}

#[test]
fn layers_take_the_constant_over(rt: HostRuntime) -> Result<(), Fail> {
    assert!(rt; TurnOrder::HOLDS);
    assert!(rt; !FirstCome::HOLDS);
    assert!(rt; Spreading::<Spreading<TurnOrder>>::HOLDS);
    assert!(rt; !Spreading::<FirstCome>::HOLDS);
    Ok(())
}

// Four numbers, and whether a policy is made for them.
const MADE: [(u8, u8, u32, u8, bool); 14] = [
    (1, 1, 7, 1, true),
    (16, 8, 1_785, 16, true),
    (0, 1, 7, 1, false),
    (17, 1, 7, 1, false),
    (255, 1, 7, 1, false),
    (1, 0, 7, 1, false),
    (1, 9, 7, 1, false),
    (1, 255, 7, 1, false),
    (1, 1, 6, 1, false),
    (1, 1, 0, 1, false),
    (1, 1, 1_786, 1, false),
    (1, 1, 7, 0, false),
    (1, 1, 7, 17, false),
    (16, 8, 1_785, 255, false),
];

#[test]
fn numbers_out_of_range_are_refused(rt: HostRuntime) -> Result<(), Fail> {
    for (requesters, places, span, banks, made) in MADE {
        match FirstCome::new(requesters, places, span, banks) {
            Ok(policy) => {
                assert!(rt; made);
                assert_eq!(rt; policy.clock(), 0);
            }
            Err(refusal) => {
                assert!(rt; !made);
                assert_eq!(rt; refusal.number(), 6);
            }
        }
        match TurnOrder::new(requesters, places, span, banks) {
            Ok(policy) => assert!(rt; made && TurnOrder::HOLDS),
            Err(refusal) => assert!(rt; !made && refusal.number() == 6),
        }
    }
    Ok(())
}

// Numbers of a policy, the start of chance, how many ticks there are, and how seldom an offer comes: at one tick of so many.
const RUNS: [(u8, u8, u32, u8, u64, u32, u32); 8] = [
    (2, 2, 36, 8, 1, 5_000, 5),
    (1, 8, 7, 1, 2, 5_000, 2),
    (16, 1, 7, 16, 3, 5_000, 3),
    (16, 8, 9, 16, 4, 5_000, 1),
    (3, 5, 11, 5, 5, 5_000, 4),
    (7, 3, 8, 9, 6, 5_000, 3),
    (2, 8, 255, 16, 7, 20_000, 50),
    (5, 4, 1_785, 8, 8, 60_000, 300),
];

// A policy that is made for the numbers of each run keeps its points all along, and some offers are taken and some refused.
fn keeps_its_points<P, F>(rt: &impl Abort, make: F) -> Result<(), Fail>
where
    P: Expected + Drop,
    F: Fn(u8, u8, u32, u8) -> Result<P, PolicyRefusal>,
    requires { F.IsAlwaysCallable make }
{
    for (requesters, places, span, banks, seed, ticks, calm) in RUNS {
        let numbers = Numbers::new(requesters, places, span, banks)?;
        let policy = make(requesters, places, span, banks)?;
        let seen = run(rt, policy, numbers, Course { seed, ticks, calm })?;
        assert!(rt; seen.given > 0 && seen.refused > 0);
    }
    Ok(())
}

// Turn order below two layers.
fn two_layers(
    requesters: u8,
    places: u8,
    span: u32,
    banks: u8,
) -> Result<Spreading<Spreading<TurnOrder>>, PolicyRefusal> {
    let below = TurnOrder::new(requesters, places, span, banks)?;
    Ok(Spreading::new(Spreading::new(below)))
}

#[test]
fn first_come_keeps_its_points(rt: HostRuntime) -> Result<(), Fail> {
    keeps_its_points(&rt, FirstCome::new)
}

#[test]
fn turn_order_keeps_its_points(rt: HostRuntime) -> Result<(), Fail> {
    keeps_its_points(&rt, TurnOrder::new)
}

#[test]
fn layers_keep_the_points_below(rt: HostRuntime) -> Result<(), Fail> {
    keeps_its_points(&rt, two_layers)
}
