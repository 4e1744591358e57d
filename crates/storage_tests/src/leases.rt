use lease_table::{Abandoned, Claimed, Lease, Published, Standing};
use std::test::Fail;

// One task and a term of 100: a lease that runs out is given to the next worker, and the first can't publish any more.
#[test]
fn a_late_publication_is_lost(rt: HostRuntime) -> Result<(), Fail> {
    let mut lease = Lease::new(rt.alloc(), 1)?;
    let first = lease.claim(0, 0, 100);
    assert_eq!(rt; first, Claimed::Work { task: 0, ticket: 0 });
    let early = lease.claim(1, 99, 100);
    assert_eq!(rt; early, Claimed::Wait);
    let second = lease.claim(1, 100, 100);
    assert_eq!(rt; second, Claimed::Work { task: 0, ticket: 1 });
    let until_200 = Some(Standing::Leased {
        ticket: 1,
        until: 200,
    });
    assert_eq!(rt;
        lease.publish(0, 0, 0),
        Published::Lost {
            round: 0,
            standing: until_200
        }
    );
    assert_eq!(rt; lease.publish(0, 0, 1), Published::Stored);
    let done = Some(Standing::Done { ticket: 1 });
    assert_eq!(rt;
        lease.publish(0, 0, 0),
        Published::Lost {
            round: 0,
            standing: done
        }
    );
    let third = lease.claim(0, 200, 100);
    assert_eq!(rt; third, Claimed::RoundDone);
    lease.advance(1);
    assert_eq!(rt;
        lease.publish(0, 0, 0),
        Published::Lost {
            round: 1,
            standing: None
        }
    );
    Ok(())
}

#[test]
fn the_other_calls(rt: HostRuntime) -> Result<(), Fail> {
    let mut lease = Lease::new(rt.alloc(), 0)?;
    let none = lease.claim(0, 0, 5);
    assert_eq!(rt; none, Claimed::RoundDone);
    lease.reserve(3)?;
    lease.advance(2);
    assert_eq!(rt; lease.round(), 1);
    assert_eq!(rt; lease.standing(1), Standing::Free);
    let first = lease.claim(0, 10, 5);
    assert_eq!(rt; first, Claimed::Work { task: 0, ticket: 0 });
    assert_eq!(rt; lease.abandon(1, 0, 0), Abandoned::Freed);
    let again = lease.claim(0, 10, u64::MAX);
    assert_eq!(rt; again, Claimed::Work { task: 0, ticket: 1 });
    assert_eq!(rt; lease.expire(u64::MAX - 1), 0);
    assert_eq!(rt; lease.expire(u64::MAX), 1);
    Ok(())
}

#[test]
fn a_kept_round_ends(rt: HostRuntime) -> Result<(), Fail> {
    let mut lease = Lease::new(rt.alloc(), 1)?;
    lease.keep(0);
    assert_eq!(rt; lease.standing(0), Standing::Done { ticket: 0 });
    let all = lease.claim(0, 0, 5);
    assert_eq!(rt; all, Claimed::RoundDone);
    lease.end();
    assert_eq!(rt; lease.is_ended(), true);
    let over = lease.claim(0, 0, 5);
    assert_eq!(rt; over, Claimed::Finished);
    Ok(())
}
