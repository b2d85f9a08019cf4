// The tests: refused offers in their order, a used policy, the two-request listing, and busy sessions run to their end.
use crate::small::{SPAN, board, command, request};
use controller::{Receipt, Session};
use policy::{FirstCome, Policy, Spreading, TurnOrder};
use rulebook::Book;
use rulebook::Kind::{Activate, Precharge, Read, Write};
use std::process::Abort;
use std::test::*;

// A session of the policy over the small sheet, up to the last cycle; or the failure where it is not opened.
fn opened<P: Policy + Drop>(policy: P, last: u32) -> Result<Session<P>, Fail> {
    let session = Session::open(board()?, policy, last).map_err(|(why, _)| why)?;
    Ok(session)
}

// A session of first come for two requesters with two places each.
fn first_come(last: u32) -> Result<Session<FirstCome>, Fail> {
    opened(FirstCome::new(2, 2, SPAN, 8)?, last)
}

// The number of the refusal of an offer of this requester and kind, 0 where it is taken.
fn number_of(session: &mut Session<FirstCome>, requester: u8, kind: u8) -> u8 {
    session
        .offer(request(requester, kind, 1, 0))
        .err()
        .map_or(0, |why| why.number())
}

#[test]
fn an_offer_is_too_late_from_the_second_cycle(rt: HostRuntime) -> Result<(), Fail> {
    let mut session = first_come(180)?;
    assert_eq!(rt;
        session.offer(request(0, 3, 7, 16)),
        Ok(Receipt {
            number: 0,
            deadline: 36
        })
    );
    assert!(rt; session.tick().is_ok());
    assert_eq!(rt; number_of(&mut session, 1, 4), 12);
    Ok(())
}

#[test]
fn offers_are_refused_in_their_order(rt: HostRuntime) -> Result<(), Fail> {
    let mut session = first_come(1_000)?;
    assert_eq!(rt; number_of(&mut session, 2, 3), 10);
    assert_eq!(rt; number_of(&mut session, 1, 2), 11);
    assert_eq!(rt; number_of(&mut session, 1, 3), 0);
    assert_eq!(rt; number_of(&mut session, 1, 4), 0);
    assert_eq!(rt; number_of(&mut session, 1, 3), 13);
    Ok(())
}

#[test]
fn a_used_policy_is_handed_back(rt: HostRuntime) -> Result<(), Fail> {
    let mut policy = FirstCome::new(2, 2, SPAN, 8)?;
    assert!(rt; policy.turn(7).is_none());
    let refused = Session::open(board()?, policy, 180).err();
    let (why, back) = refused.ok_or("opened")?;
    assert_eq!(rt; why.number(), 8);
    assert_eq!(rt; back.clock(), 7);
    Ok(())
}

#[test]
fn the_two_request_listing(rt: HostRuntime) -> Result<(), Fail> {
    let mut session = first_come(1_000_000)?;
    let listing = [
        command(1, Activate, 7, 0, 0),
        command(4, Read, 7, 16, 0),
        command(9, Precharge, 0, 0, 1),
        command(12, Activate, 9, 0, 1),
        command(15, Write, 9, 0, 1),
    ];
    let mut expected = listing.iter();
    for clock in 1..40 {
        if clock == 1 {
            assert!(rt; session.offer(request(0, 3, 7, 16)).is_ok());
        }
        if clock == 5 {
            assert!(rt; session.offer(request(1, 4, 9, 0)).is_ok());
        }
        let answer = session.tick()?;
        if answer.is_some() {
            assert_eq!(rt; answer, expected.next().copied());
        }
    }
    assert!(rt; expected.next().is_none());
    Ok(())
}

// Ticks a busy session to its end: its commands are lawful, and it refuses to tick on. It gives how many reads were served.
// They are counted in the loop: a chain over the cycles would have to carry the session, the book and the failure along.
fn runs_lawfully<P: Policy + Drop>(rt: &impl Abort, policy: P, last: u32) -> Result<u32, Fail> {
    let board = board()?;
    let mut session = opened(policy, last)?;
    let mut book = Book::new();
    let mut served: u32 = 0;
    for clock in 0..last {
        let requester = (clock % 2) as u8;
        let row = (clock % 5) as u16;
        let _ = session.offer(request(requester, 3, row, 1));
        if let Some(command) = session.tick()? {
            assert!(rt; book.admit(&board, command).is_ok());
            if command.kind == Read {
                served = served.saturating_add(1);
            }
        }
    }
    let past = session.tick().err();
    assert_eq!(rt; past.map(|why| why.number()), Some(14));
    Ok(served)
}

// In turn order each of the twenty slots serves one request but the last: it would have to be asked for at cycle 542, which is too late by one.
#[test]
fn busy_sessions_run_to_their_end(rt: HostRuntime) -> Result<(), Fail> {
    let first = FirstCome::new(2, 2, SPAN, 8)?;
    let turns = TurnOrder::new(2, 2, SPAN, 8)?;
    let below = TurnOrder::new(2, 2, SPAN, 8)?;
    assert!(rt; runs_lawfully(&rt, first, 720)? >= 19);
    assert_eq!(rt; runs_lawfully(&rt, turns, 720)?, 19);
    assert_eq!(rt; runs_lawfully(&rt, Spreading::new(below), 720)?, 19);
    Ok(())
}
