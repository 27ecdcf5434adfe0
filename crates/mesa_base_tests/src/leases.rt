// Leases, and what is answered at their edges.
use crate::expected::expect_same;
use mesa_lease::{Busy, Leases, Lost};

fn lost(lease: u64, holder: Option<u64>) -> Lost {
    Lost { lease, holder }
}

// Leases of three turns: what holds at the edges, and what is answered there.
#[test]
fn leases_at_their_edges(rt: HostRuntime) {
    let mut leases = Leases::new(3);
    expect_same(&rt, &leases.grant(0, 1, 5), &Ok(1), &"grant(0, 1, 5)");
    expect_same(&rt, &leases.holds(0, 7), &Some(1), &"holds(0, 7)");
    assert!(rt; leases.holds(0, 8).is_none());
    assert!(rt; leases.holds(1, 7).is_none());
    expect_same(
        &rt,
        &leases.grant(0, 2, 7),
        &Err(Busy { lease: 1 }),
        &"grant(0, 2, 7)",
    );
    expect_same(&rt, &leases.grant(0, 2, 8), &Ok(2), &"grant(0, 2, 8)");
    expect_same(
        &rt,
        &leases.renew(0, 1, 10),
        &Err(lost(1, Some(2))),
        &"renew(0, 1, 10)",
    );
    expect_same(
        &rt,
        &leases.renew(0, 2, 11),
        &Err(lost(2, None)),
        &"renew(0, 2, 11)",
    );
    expect_same(&rt, &leases.grant(0, 1, 12), &Ok(3), &"grant(0, 1, 12)");
    expect_same(&rt, &leases.renew(0, 3, 14), &Ok(()), &"renew(0, 3, 14)");
    expect_same(
        &rt,
        &leases.complete(0, 3, 16),
        &Ok(()),
        &"complete(0, 3, 16)",
    );
    expect_same(
        &rt,
        &leases.complete(0, 3, 17),
        &Err(lost(3, None)),
        &"complete(0, 3, 17)",
    );
    expect_same(&rt, &leases.grant(0, 1, 18), &Ok(4), &"grant(0, 1, 18)");
    leases.give_up(0, 3);
    expect_same(&rt, &leases.holds(0, 20), &Some(4), &"holds(0, 20)");
    leases.give_up(0, 4);
    assert!(rt; leases.holds(0, 20).is_none());
}

// A lease of one turn is lost before it can be renewed; one of two turns isn't.
#[test]
fn short_leases(rt: HostRuntime) {
    let mut one = Leases::new(1);
    expect_same(&rt, &one.grant(0, 0, 6), &Ok(1), &"grant(0, 0, 6)");
    expect_same(
        &rt,
        &one.renew(0, 1, 7),
        &Err(lost(1, None)),
        &"renew(0, 1, 7)",
    );
    let mut two = Leases::new(2);
    expect_same(&rt, &two.grant(0, 0, 6), &Ok(1), &"grant(0, 0, 6)");
    expect_same(&rt, &two.renew(0, 1, 7), &Ok(()), &"renew(0, 1, 7)");
    expect_same(&rt, &two.complete(0, 1, 8), &Ok(()), &"complete(0, 1, 8)");
}
