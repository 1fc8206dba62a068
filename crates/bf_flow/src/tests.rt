use crate::{Peer, flow_turn, pull_ask, push_quota};
use std::test::Fail;

#[test]
fn half_goes_to_a_lone_neighbor(rt: HostRuntime) -> Result<(), Fail> {
    let mut flows = [0];
    let left = flow_turn(
        10240,
        1,
        &[Peer {
            rank: 1,
            load: 0,
            degree: 1,
        }],
        &mut flows,
    );
    assert_eq!(rt; left, 5120);
    assert_eq!(rt; flows[0], 5120);
    Ok(())
}

// Half of 3 is rounded towards zero on both sides.
#[test]
fn both_ends_round_alike(rt: HostRuntime) -> Result<(), Fail> {
    let mut low = [0];
    let mut high = [0];
    assert_eq!(rt;
        flow_turn(
            0,
            1,
            &[Peer {
                rank: 1,
                load: 3,
                degree: 1
            }],
            &mut low
        ),
        1
    );
    assert_eq!(rt;
        flow_turn(
            3,
            1,
            &[Peer {
                rank: 0,
                load: 0,
                degree: 1
            }],
            &mut high
        ),
        2
    );
    assert_eq!(rt; low[0], -1);
    assert_eq!(rt; high[0], 1);
    Ok(())
}

// Three ranks, each a neighbor of both others: a third of 8192 goes to each, and what is left by rounding stays.
#[test]
fn three_ranks_come_to_rest(rt: HostRuntime) -> Result<(), Fail> {
    let mut flows = [0, 0];
    let empty = [
        Peer {
            rank: 1,
            load: 0,
            degree: 2,
        },
        Peer {
            rank: 2,
            load: 0,
            degree: 2,
        },
    ];
    let left = flow_turn(8192, 2, &empty, &mut flows);
    assert_eq!(rt; left, 2732);
    let even = [
        Peer {
            rank: 1,
            load: 2730,
            degree: 2,
        },
        Peer {
            rank: 2,
            load: 2730,
            degree: 2,
        },
    ];
    assert_eq!(rt; flow_turn(left, 2, &even, &mut flows), 2732);
    assert_eq!(rt; flows[0], 2730);
    assert_eq!(rt; flows[1], 2730);
    assert_eq!(rt; push_quota(flows[0]), 3);
    assert_eq!(rt; push_quota(flows[1]), 3);
    Ok(())
}

#[test]
fn quotas_are_to_the_nearest(rt: HostRuntime) -> Result<(), Fail> {
    assert_eq!(rt; push_quota(-5120), 0);
    assert_eq!(rt; push_quota(511), 0);
    assert_eq!(rt; push_quota(512), 1);
    assert_eq!(rt; push_quota(1536), 2);
    assert_eq!(rt; push_quota(5120), 5);
    Ok(())
}

// The net inflow is 2072, so 2 are asked for in all, and the first neighbor's flow brings both.
#[test]
fn no_more_is_asked_than_flows_in(rt: HostRuntime) -> Result<(), Fail> {
    let mut asks = [9, 9, 9];
    pull_ask(&[(2, -2048), (5, -1024), (7, 1000)], &mut asks);
    assert_eq!(rt; asks[0], 2);
    assert_eq!(rt; asks[1], 0);
    assert_eq!(rt; asks[2], 0);
    Ok(())
}

// Two halves flow in, each of which is 1 to the nearest; together they are 1 as well.
#[test]
fn the_lower_rank_is_asked_where_flows_are_alike(rt: HostRuntime) -> Result<(), Fail> {
    let mut asks = [9, 9];
    pull_ask(&[(3, -512), (4, -512)], &mut asks);
    assert_eq!(rt; asks[0], 1);
    assert_eq!(rt; asks[1], 0);
    pull_ask(&[(3, -512), (4, -900)], &mut asks);
    assert_eq!(rt; asks[0], 0);
    assert_eq!(rt; asks[1], 1);
    pull_ask(&[(3, -512), (4, 512)], &mut asks);
    assert_eq!(rt; asks[0], 0);
    assert_eq!(rt; asks[1], 0);
    Ok(())
}
