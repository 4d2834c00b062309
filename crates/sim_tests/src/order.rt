//! Events are ordered by time, at one time by class, then by rank and number.
ghost use Rattle.std.specs.Prelude.{◌≡◌, ◌<◌};

use crate::same::same;
use goal_graph::{Class, OpId};
use goal_limits::{MAX_OPS, MAX_RANKS};
use sim_order::{CompactKey, EventKey, EventOrder, Steps};
use std::marker::Brand;
use std::sync::ledger::{Blank, Ledger};
use std::test::Fail;

fn is_before<K: EventOrder, L: Ledger>(blank: Blank, one: &K, other: &K) -> bool
    requires name { blank.name ≡ L.name }
    requires parts { blank.parts ≡ L.parts }
    requires some { 0 < blank.parts }
{
    let mut steps = Steps::<L>::new(blank);
    one.before(other, &mut steps)
}

fn differ<K: EventOrder>(one: &K, other: &K) -> bool {
    is_before::<K, Brand>(Blank::new(1), one, other)
        && !is_before::<K, Brand>(Blank::new(1), other, one)
}

#[test]
fn orders_by_time_class_rank_and_number(rt: HostRuntime) -> Result<(), Fail> {
    let id = OpId { rank: 1, op: 1 };
    let key = EventKey::new(7, Class::Data, id);
    assert!(rt;
        differ(
            &EventKey::new(6, Class::Begin, OpId { rank: 9, op: 9 }),
            &key
        )
    );
    assert!(rt;
        differ(
            &EventKey::new(7, Class::Serve, OpId { rank: 9, op: 9 }),
            &key
        )
    );
    assert!(rt;
        differ(
            &EventKey::new(7, Class::Data, OpId { rank: 0, op: 9 }),
            &key
        )
    );
    assert!(rt;
        differ(
            &EventKey::new(7, Class::Data, OpId { rank: 1, op: 0 }),
            &key
        )
    );
    assert!(rt; !differ(&key, &key));
    Ok(())
}

#[test]
fn orders_compact_keys_alike(rt: HostRuntime) -> Result<(), Fail> {
    let last = OpId {
        rank: MAX_RANKS - 1,
        op: MAX_OPS - 1,
    };
    let key = CompactKey::new(7, Class::Data, OpId { rank: 1, op: 1 });
    assert!(rt; differ(&CompactKey::new(6, Class::Begin, last), &key));
    assert!(rt; differ(&CompactKey::new(7, Class::Serve, last), &key));
    assert!(rt;
        differ(
            &CompactKey::new(
                7,
                Class::Data,
                OpId {
                    rank: 0,
                    op: MAX_OPS - 1
                }
            ),
            &key
        )
    );
    assert!(rt;
        differ(
            &CompactKey::new(7, Class::Data, OpId { rank: 1, op: 0 }),
            &key
        )
    );
    assert!(rt; !differ(&key, &key));
    Ok(())
}

#[test]
fn reads_the_parts_of_a_compact_key(rt: HostRuntime) -> Result<(), Fail> {
    let last = OpId {
        rank: MAX_RANKS - 1,
        op: MAX_OPS - 1,
    };
    let key = CompactKey::new(u64::MAX, Class::Begin, last).at(5);
    same(&rt, &key.time(), &5);
    assert!(rt; key.class() == Class::Begin);
    assert!(rt; key.id() == last);
    Ok(())
}
